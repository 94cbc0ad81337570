// Stores of all widths.
ghost use Rattle.std.specs.Prelude.{◌≡◌, IfOk};
ghost use Rattle.cc_line.specs.BlockView.{block_items};
ghost use Rattle.cc_access.specs.Access as spec;

use crate::offset::next_offset;
use cc_line::{Block, next_place};
use cc_mem::store as store_word;
use mc_nbt::Memory;
use std::alloc::Global;
use wm_ast::StoreOp;

/// The items of a store. The address is in a place, with an offset, and the value in the next one, of an i64 the low half, with
/// its high half behind it. `sure` says that the memory has a page in any case.
///
/// # Errors
///
/// `Memory` where there is no room for them, or no number for a place.
pub fn store(
    alloc: Global,
    sure: bool,
    op: StoreOp,
    place: u32,
    offset: u32,
) -> Result<Block, Memory>
    ensures { IfOk result (λ b. block_items b ≡ spec.store_items sure op place offset) }
{
    let before = before(alloc, sure, op, place, offset)?;
    let low = store_word(
        alloc,
        sure,
        low_store(op),
        place,
        offset,
        next_place(place)?,
    )?;
    before.join(low)
}

/// The store of an i32 that writes the low half.
pub(crate) fn low_store(op: StoreOp) -> StoreOp
    ensures { result ≡ spec.low_store op }
{
    match op {
        StoreOp::I64Store => StoreOp::I32Store,
        StoreOp::I64Store8 => StoreOp::I32Store8,
        StoreOp::I64Store16 => StoreOp::I32Store16,
        StoreOp::I64Store32 => StoreOp::I32Store,
        _ => op,
    }
}

// Of eight bytes the high half is written first, where the whole store traps if it does.
fn before(alloc: Global, sure: bool, op: StoreOp, place: u32, offset: u32) -> Result<Block, Memory>
    ensures { IfOk result (λ b. block_items b ≡ spec.before_store sure op place offset) }
{
    match op {
        StoreOp::I64Store => store_word(
            alloc,
            sure,
            StoreOp::I32Store,
            place,
            next_offset(offset),
            next_place(next_place(place)?)?,
        ),
        _ => Block::of_steps(alloc, &[]),
    }
}
