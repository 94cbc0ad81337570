// The items of each operation.
ghost use Rattle.std.specs.Prelude.{◌≡◌, IfOk, true};
ghost use Rattle.wm_ast.specs.Operator.{operator_of};
ghost use Rattle.cc_line.specs.BlockView.{block_items};
ghost use Rattle.cc_bits64.specs.Operation.{is_own, op_items};

use crate::{halves, shifting};
use cc_line::Block;
use mc_nbt::Memory;
use std::alloc::Global;
use wm_ast::NumOp;

/// The items of an operation on bits of i64, whose operands stand from the place on, two places each, and whose result
/// comes there.
///
/// # Errors
///
/// `Memory` where there is no room for it, or the places have no numbers.
pub fn emit(alloc: Global, op: NumOp, place: u32) -> Result<Block, Memory>
    requires { is_own (operator_of op) ≡ true }
    ensures { IfOk result (λ b. block_items b ≡ op_items op place) }
{
    match op {
        NumOp::I64And => halves::halves(alloc, NumOp::I32And, place),
        NumOp::I64Or => halves::halves(alloc, NumOp::I32Or, place),
        NumOp::I64Xor => halves::halves(alloc, NumOp::I32Xor, place),
        NumOp::I64Clz => halves::leading(alloc, place),
        NumOp::I64Ctz => halves::trailing(alloc, place),
        NumOp::I64Popcnt => halves::ones(alloc, place),
        NumOp::I64Shl => shifting::shl(alloc, place),
        NumOp::I64ShrS => shifting::shr_s(alloc, place),
        NumOp::I64ShrU => shifting::shr_u(alloc, place),
        NumOp::I64Rotl => shifting::rotl(alloc, place),
        NumOp::I64Rotr => shifting::rotr(alloc, place),
        _ => unreachable!(),
    }
}
