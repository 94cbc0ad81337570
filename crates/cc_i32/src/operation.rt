// Operations of i32 on places.
ghost use Rattle.std.specs.Prelude.{◌≡◌, [], IfOk, true};
ghost use Rattle.wm_ast.specs.Operator.{operator_of};
ghost use Rattle.cc_line.specs.BlockView.{block_items};
ghost use Rattle.cc_line.specs.Core as spec;
ghost use Rattle.cc_line.specs.Item.{steps_items};
ghost use Rattle.cc_line.specs.View.{steps_view};
ghost use Rattle.cc_i32.specs.Operation.{binary_items, compare_items, is_arithmetic, is_own, op_items, operator_items};

use crate::division::{div_s, div_u, rem_s, rem_u};
use crate::light::{arithmetic, compares, compares_unsigned, differ, is_zero};
use cc_line::{Block, Emitted, Pieces, Slots, Step, on_one, on_two};
use mc_cmd::{Cmp, Op};
use mc_nbt::{Kind, Memory};
use std::alloc::Global;
use wm_ast::{BinaryOp, CompareOp, NumOp, Operator};

/// What is emitted for an operation: the items that make its result, in the place `s.r`, of the operands in the places
/// `s.a` and `s.b`. An operation of one operand reads `s.a` alone. Any of the places may be one. There are no pieces
/// besides.
///
/// # Errors
///
/// `Memory` where there is no room for it.
pub fn emit(alloc: Global, op: NumOp, s: Slots) -> Result<Emitted, Memory>
    requires { is_own (operator_of op) ≡ true }
    ensures block { IfOk result (λ e. block_items e.block ≡ op_items op s.a s.b s.r) }
    ensures pieces { IfOk result (λ e. e.pieces ≡ []) }
{
    Ok(Emitted {
        block: block_of(alloc, op.operator(), s)?,
        pieces: Pieces::new(alloc),
    })
}

fn block_of(alloc: Global, operator: Operator, s: Slots) -> Result<Block, Memory>
    requires { is_own operator ≡ true }
    ensures { IfOk result (λ b. block_items b ≡ operator_items operator s.a s.b s.r) }
{
    match operator {
        Operator::Test(Kind::I32) => with_one(alloc, &is_zero(), s),
        Operator::Binary(Kind::I32, op) => binary(alloc, op, s),
        Operator::Comparison(Kind::I32, op) => compare(alloc, op, s),
        _ => unreachable!(),
    }
}

fn binary(alloc: Global, op: BinaryOp, s: Slots) -> Result<Block, Memory>
    requires { is_arithmetic op ≡ true }
    ensures { IfOk result (λ b. block_items b ≡ binary_items op s.a s.b s.r) }
{
    match op {
        BinaryOp::Add => with_two(alloc, &arithmetic(Op::Add), s),
        BinaryOp::Sub => with_two(alloc, &arithmetic(Op::Subtract), s),
        BinaryOp::Mul => with_two(alloc, &arithmetic(Op::Multiply), s),
        BinaryOp::DivS => div_s(alloc, s),
        BinaryOp::DivU => div_u(alloc, s),
        BinaryOp::RemS => rem_s(alloc, s),
        BinaryOp::RemU => rem_u(alloc, s),
        _ => unreachable!(),
    }
}

fn compare(alloc: Global, op: CompareOp, s: Slots) -> Result<Block, Memory>
    ensures { IfOk result (λ b. block_items b ≡ compare_items op s.a s.b s.r) }
{
    match op {
        CompareOp::Eq => with_two(alloc, &compares(Cmp::Equal), s),
        CompareOp::Ne => with_two(alloc, &differ(), s),
        CompareOp::LtS => with_two(alloc, &compares(Cmp::Less), s),
        CompareOp::LtU => with_two(alloc, &compares_unsigned(Cmp::Less), s),
        CompareOp::GtS => with_two(alloc, &compares(Cmp::Greater), s),
        CompareOp::GtU => with_two(alloc, &compares_unsigned(Cmp::Greater), s),
        CompareOp::LeS => with_two(alloc, &compares(Cmp::LessEqual), s),
        CompareOp::LeU => with_two(alloc, &compares_unsigned(Cmp::LessEqual), s),
        CompareOp::GeS => with_two(alloc, &compares(Cmp::GreaterEqual), s),
        CompareOp::GeU => with_two(alloc, &compares_unsigned(Cmp::GreaterEqual), s),
    }
}

// The block of a core with two operands.
fn with_two(alloc: Global, core: &[Step], s: Slots) -> Result<Block, Memory>
    ensures { IfOk result (λ b. block_items b
        ≡ steps_items (spec.on_two s.a s.b s.r (spec.core_on (steps_view core.now)))) }
{
    let mut steps = Vec::new(alloc);
    on_two(core, s, &mut steps)?;
    Block::of_steps(alloc, steps.as_slice())
}

// The block of a core with one.
fn with_one(alloc: Global, core: &[Step], s: Slots) -> Result<Block, Memory>
    ensures { IfOk result (λ b. block_items b
        ≡ steps_items (spec.on_one s.a s.r (spec.core_on_one (steps_view core.now)))) }
{
    let mut steps = Vec::new(alloc);
    on_one(core, s, &mut steps)?;
    Block::of_steps(alloc, steps.as_slice())
}
