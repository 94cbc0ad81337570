// The pieces that restore the frame of a caller behind its call.
ghost use Rattle.std.specs.Prelude.{◌≡◌, IfOk};
ghost use Rattle.cc_line.specs.View.{items_view, piece_view};
ghost use Rattle.cc_pieces.specs.Restoring.{restore_piece, restoring_items};

use crate::items::items_of_acts;
use cc_call::restore_frame;
use cc_line::{Item, PieceId, sum};
use mc_nbt::Memory;
use std::alloc::Global;

// The pieces that restore frames count from here on among those of a body.
const FIRST_RESTORE: u32 = 1_048_576;

/// The piece that restores the frame of a function, where the cut of this index follows a call.
///
/// # Errors
///
/// `Memory` where its number is 2^32 or more.
pub fn restore_piece(func: u32, index: u32) -> Result<PieceId, Memory>
    ensures { IfOk result (λ id. piece_view id ≡ restore_piece func index) }
{
    let index = sum(FIRST_RESTORE, index)?;
    Ok(PieceId::Body { func, index })
}

/// The items of the piece that restores a frame of this size before the cut of this index, where that follows a call
/// with so many places of results, and so many places under these are needed again.
///
/// # Errors
///
/// `Memory` where there is no room for them, or a number is 2^31 or more.
pub fn restoring_items(
    alloc: Global,
    func: u32,
    index: u32,
    in_use: u32,
    results: u32,
    size: u32,
) -> Result<Vec<Item>, Memory>
    ensures { IfOk result (λ v. items_view v.items ≡ restoring_items func index in_use results size) }
{
    let next = PieceId::Body { func, index };
    let mut acts = Vec::new(alloc);
    restore_frame(in_use, results, size, next, &mut acts)?;
    items_of_acts(alloc, acts.as_slice())
}
