//! An operation with its operands, as a line spells it: its name in the text format, and the operands in decimal as
//! signed numbers, with one space between.
ghost use Rattle.std.specs.Prelude.{◌≡◌, IfSome};
ghost use Rattle.mc_nbt.specs.Value.{kind_of};
ghost use Rattle.test_operations.specs.Takes.{Answers};

use crate::name::operation;
use mc_nbt::{Kind, Value};
use wm_ast::{NumOp, Operator};
use wm_num::{Answer, apply1, apply2};

/// How many operands an operation takes, and of which type.
enum Takes {
    One(Kind),
    Two(Kind),
}

fn operands_of(op: NumOp) -> Takes
    ensures { Answers op result }
{
    match op.operator() {
        Operator::Test(kind) | Operator::Unary(kind, _) => Takes::One(kind),
        Operator::Binary(kind, _) | Operator::Comparison(kind, _) => Takes::Two(kind),
        Operator::Wrap => Takes::One(Kind::I64),
        Operator::ExtendS | Operator::ExtendU => Takes::One(Kind::I32),
    }
}

/// A number of this type.
fn value(kind: Kind, word: &str) -> Option<Value>
    ensures { IfSome result (λ v. kind_of v ≡ kind) }
{
    match kind {
        Kind::I32 => Some(Value::I32(word.parse::<i32>().ok()?)),
        Kind::I64 => Some(Value::I64(word.parse::<i64>().ok()?)),
    }
}

/// The operands of an operation.
#[derive(Clone, Copy)]
pub enum Operands {
    One(Value),
    Two(Value, Value),
}

/// An operation with its operands, and what it gives.
#[derive(Clone, Copy)]
pub struct Evaluated {
    pub op: NumOp,
    pub operands: Operands,
    pub answer: Answer,
}

/// What the operation of a line gives; none where the line is no operation with its operands.
pub fn evaluate(line: &str) -> Option<Evaluated> {
    let (name, words) = line.split_once(' ')?;
    let op = operation(name)?;
    let (operands, answer) = match operands_of(op) {
        Takes::One(kind) => {
            let operand = value(kind, words)?;
            (Operands::One(operand), apply1(op, operand))
        }
        Takes::Two(kind) => {
            let (first, second) = words.split_once(' ')?;
            let (first, second) = (value(kind, first)?, value(kind, second)?);
            (Operands::Two(first, second), apply2(op, first, second))
        }
    };
    Some(Evaluated {
        op,
        operands,
        answer,
    })
}
