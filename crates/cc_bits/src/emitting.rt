// The items of each operation.
ghost use Rattle.std.specs.Prelude.{◌≡◌, ◌||◌, [], IfOk, true};
ghost use Rattle.cc_line.specs.BlockView.{block_items};
ghost use Rattle.cc_bits.specs.Operation.{is_binary, is_unary, one_items, op_items};
ghost use Rattle.cc_bits.specs.Counting.{clz_steps, ctz_steps, extend_steps};

use crate::line::{of_one, of_two, on_operand};
use crate::{counting, digit, shifting};
use cc_line::{Block, Emitted, Pieces, Scratch, Slots};
use mc_nbt::Memory;
use std::alloc::Global;
use wm_ast::NumOp;

/// What is emitted for an operation on bits of i32: its items on the places of its operands and of its result, any of
/// which may be one, and no piece. One with one operand reads `s.a` alone.
///
/// # Errors
///
/// `Memory` where there is no room for it.
pub fn emit(alloc: Global, op: NumOp, s: Slots) -> Result<Emitted, Memory>
    requires { is_unary op || is_binary op ≡ true }
    ensures items { IfOk result (λ e. block_items e.block ≡ op_items op s.a s.b s.r) }
    ensures pieces { IfOk result (λ e. e.pieces ≡ []) }
{
    let block = block_of(alloc, op, s)?;
    Ok(Emitted {
        block,
        pieces: Pieces::new(alloc),
    })
}

fn block_of(alloc: Global, op: NumOp, s: Slots) -> Result<Block, Memory>
    requires { is_unary op || is_binary op ≡ true }
    ensures { IfOk result (λ b. block_items b ≡ op_items op s.a s.b s.r) }
{
    match op {
        NumOp::I32Clz => clz(alloc, s),
        NumOp::I32Ctz => ctz(alloc, s),
        NumOp::I32Popcnt => of_one(alloc, s, digit::popcnt(alloc)?, Scratch::D),
        NumOp::I32Extend8S => extend(alloc, s, 256, 128),
        NumOp::I32Extend16S => extend(alloc, s, 65536, 32768),
        NumOp::I32And => of_two(alloc, s, digit::and(alloc)?, Scratch::D),
        NumOp::I32Or => of_two(alloc, s, digit::or(alloc)?, Scratch::E),
        NumOp::I32Xor => of_two(alloc, s, digit::xor(alloc)?, Scratch::E),
        NumOp::I32Shl => of_two(alloc, s, shifting::shl(alloc)?, Scratch::A),
        NumOp::I32ShrS => of_two(alloc, s, shifting::shr_s(alloc)?, Scratch::A),
        NumOp::I32ShrU => of_two(alloc, s, shifting::shr_u(alloc)?, Scratch::A),
        NumOp::I32Rotl => of_two(alloc, s, shifting::rotl(alloc)?, Scratch::A),
        NumOp::I32Rotr => of_two(alloc, s, shifting::rotr(alloc)?, Scratch::A),
        _ => unreachable!(),
    }
}

fn clz(alloc: Global, s: Slots) -> Result<Block, Memory>
    ensures { IfOk result (λ b. block_items b ≡ one_items s.a s.r clz_steps) }
{
    let core = counting::clz(alloc)?;
    on_operand(alloc, s, core.as_slice())
}

fn ctz(alloc: Global, s: Slots) -> Result<Block, Memory>
    ensures { IfOk result (λ b. block_items b ≡ one_items s.a s.r ctz_steps) }
{
    let core = counting::ctz(alloc)?;
    on_operand(alloc, s, core.as_slice())
}

fn extend(alloc: Global, s: Slots, range: i32, half: i32) -> Result<Block, Memory>
    ensures { IfOk result (λ b. block_items b ≡ one_items s.a s.r (extend_steps range half)) }
{
    on_operand(alloc, s, &counting::extend(range, half))
}
