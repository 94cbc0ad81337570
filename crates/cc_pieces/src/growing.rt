// The piece that appends pages to the memory, and how it is made the next one.
ghost use Rattle.std.specs.Prelude.{◌≡◌, ◌++◌, slice_get, IfOk, OnOk};
ghost use Rattle.cc_line.specs.View.{piece_view};
ghost use Rattle.cc_call.specs.View.{acts_view};
ghost use Rattle.cc_bulk.specs.Grow.{grower_items};
ghost use Rattle.cc_pieces.specs.Growing.{append_next_acts, cut_behind, grower_piece};
ghost use Rattle.cc_pieces.specs.Parts.{grower_parts, part, part_view, parts_view};

use crate::part::{Part, part_of};
use cc_bulk::grower;
use cc_call::{push_follows, push_next};
use cc_line::{Act, PieceId};
use mc_nbt::Memory;
use std::alloc::Global;
use wm_ast::Module;

// The index of the shared piece that appends pages.
const GROWER_INDEX: u32 = 30_000;

fn grower_piece() -> PieceId
    ensures { piece_view result ≡ grower_piece }
{
    PieceId::Shared {
        index: GROWER_INDEX,
    }
}

// The cut that was found. Each instruction that grows the memory is followed by one.
fn cut_behind(func: u32, found: Option<u32>) -> PieceId
    ensures { piece_view result ≡ cut_behind func found }
{
    match found {
        Some(index) => PieceId::Body { func, index },
        None => PieceId::Body { func, index: 0 },
    }
}

/// Pages are appended next, and the cut that was found follows.
///
/// # Errors
///
/// `Memory` where there is no room for them.
pub fn push_append_next(func: u32, found: Option<u32>, acts: &mut Vec<Act>) -> Result<(), Memory>
    ensures { OnOk result (acts_view acts.new.items ≡ acts_view acts.old.items ++ append_next_acts func found) }
{
    push_follows(cut_behind(func, found), acts)?;
    push_next(grower_piece(), acts)
}

// The shared piece that appends pages.
fn grower_part(alloc: Global) -> Result<Part, Memory>
    ensures { IfOk result (λ p. part_view p ≡ part grower_piece grower_items) }
{
    let block = grower(alloc)?;
    part_of(alloc, grower_piece(), block.into_items())
}

/// Adds the shared piece that appends pages, where the module has a memory.
///
/// # Errors
///
/// `Memory` where there is no room for it.
pub fn push_grower(alloc: Global, m: &Module, parts: &mut Vec<Part>) -> Result<(), Memory>
    ensures { OnOk result (parts_view parts.new.items
        ≡ parts_view parts.old.items ++ grower_parts (slice_get m.now.mems 0)) }
{
    if m.mems.get(0).is_some() {
        parts.push(grower_part(alloc)?)?;
    }
    Ok(())
}
