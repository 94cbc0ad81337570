ghost use Rattle.std.specs.Prelude.{◌≡◌, [], ◌∷◌, Some, IsSome};
ghost use Rattle.wm_ast.specs.Apply.{apply, truth as truth_of};

use crate::{int32, int64};
use mc_nbt::{Kind, Value};
use wm_ast::{Answer, NumOp, Operator};

/// A truth value: 1 or 0 of the type i32.
fn truth(b: bool) -> Answer
    ensures { result ≡ truth_of b }
{
    Answer::Value(Value::I32(if b { 1 } else { 0 }))
}

/// What an operation of one operand gives. The operation has to take one operand, of this one's type.
pub fn apply1(op: NumOp, a: Value) -> Answer
    requires { IsSome (apply op (a ∷ [])) }
    ensures { apply op (a ∷ []) ≡ Some result }
{
    match (op.operator(), a) {
        (Operator::Test(Kind::I32), Value::I32(a)) => truth(a == 0),
        (Operator::Test(Kind::I64), Value::I64(a)) => truth(a == 0),
        (Operator::Unary(Kind::I32, op), Value::I32(a)) => {
            int32::value(int32::unary(op, a.cast_unsigned()))
        }
        (Operator::Unary(Kind::I64, op), Value::I64(a)) => {
            int64::value(int64::unary(op, a.cast_unsigned()))
        }
        (Operator::Wrap, Value::I64(a)) => int32::value((a.cast_unsigned() % 4294967296) as u32),
        (Operator::ExtendS, Value::I32(a)) => Answer::Value(Value::I64(i64::from(a))),
        (Operator::ExtendU, Value::I32(a)) => int64::value(u64::from(a.cast_unsigned())),
        _ => unreachable!(),
    }
}

/// What an operation of two operands gives, or its trap: `a` is the first one, on which the second stands. The
/// operation has to take two operands, of the type of these.
pub fn apply2(op: NumOp, a: Value, b: Value) -> Answer
    requires { IsSome (apply op (a ∷ b ∷ [])) }
    ensures { apply op (a ∷ b ∷ []) ≡ Some result }
{
    match (op.operator(), a, b) {
        (Operator::Binary(Kind::I32, op), Value::I32(a), Value::I32(b)) => {
            int32::binary(op, a.cast_unsigned(), b.cast_unsigned())
        }
        (Operator::Binary(Kind::I64, op), Value::I64(a), Value::I64(b)) => {
            int64::binary(op, a.cast_unsigned(), b.cast_unsigned())
        }
        (Operator::Comparison(Kind::I32, op), Value::I32(a), Value::I32(b)) => {
            truth(int32::compare(op, a.cast_unsigned(), b.cast_unsigned()))
        }
        (Operator::Comparison(Kind::I64, op), Value::I64(a), Value::I64(b)) => {
            truth(int64::compare(op, a.cast_unsigned(), b.cast_unsigned()))
        }
        _ => unreachable!(),
    }
}
