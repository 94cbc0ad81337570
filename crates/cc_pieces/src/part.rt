// Pieces with their charges.
ghost use Rattle.std.specs.Prelude.{◌≡◌, IfOk};
ghost use Rattle.cc_line.specs.Item.{call_item, first, no_more};
ghost use Rattle.cc_line.specs.View.{items_view, name_text, piece_view};
ghost use Rattle.cc_sched.specs.Pieces.{piece_of};
ghost use Rattle.cc_call.specs.Acts.{acts_then};
ghost use Rattle.cc_pieces.specs.Parts.{part, part_view};
ghost use Rattle.cc_call.specs.View.{acts_view};

use crate::items::items_of_acts;
use cc_line::{Act, Block, Item, Name, PieceId, sum};
use cc_sched::charged;
use mc_nbt::Memory;
use std::alloc::Global;
use wm_ast::Items;

// The routines that end jobs are numbered from here on.
const FIRST_END: u32 = 10_000;

/// A piece: its name, and what is run for it, with its charges.
#[derive(Drop)]
pub struct Part {
    pub id: PieceId,
    pub block: Block,
}

/// A list of pieces.
pub type Parts = Items<Part>;

// The items of a call of a function that has these.
fn calling(alloc: Global, name: Name, items: Vec<Item>) -> Result<Vec<Item>, Memory>
    ensures { IfOk result (λ v. items_view v.items
        ≡ first (call_item (name_text name) (items_view items.items)) no_more) }
{
    let call = Item::Call {
        when: None,
        name,
        items,
    };
    Ok(vec![in alloc; call]?)
}

// What is run for a piece of these items: they themselves where it is of a function's body, else the function that has
// their lines.
fn run_for(alloc: Global, id: PieceId, items: Vec<Item>) -> Result<Vec<Item>, Memory>
    ensures { IfOk result (λ v. items_view v.items ≡ piece_of (piece_view id) (items_view items.items)) }
{
    match id {
        PieceId::Body { .. } => Ok(items),
        PieceId::Init { index } => calling(alloc, Name::Numbered("i", index), items),
        PieceId::Shared { index } => calling(alloc, Name::Numbered("s", index), items),
        PieceId::End { results } => {
            let index = sum(FIRST_END, results)?;
            calling(alloc, Name::Numbered("s", index), items)
        }
    }
}

/// The piece of these items, which come without their charges.
///
/// # Errors
///
/// `Memory` where there is no room for it, or the number of its function is 2^32 or more.
pub fn part_of(alloc: Global, id: PieceId, items: Vec<Item>) -> Result<Part, Memory>
    ensures { IfOk result (λ p. part_view p ≡ part (piece_view id) (items_view items.items)) }
{
    let items = run_for(alloc, id, items)?;
    let block = charged(alloc, Block::of(items)?)?;
    Ok(Part { id, block })
}

/// The piece of these acts alone, without its charge.
pub(crate) fn part_of_acts(alloc: Global, id: PieceId, acts: &[Act]) -> Result<Part, Memory>
    ensures { IfOk result (λ p. part_view p ≡ part (piece_view id) (acts_then (acts_view acts.now) no_more)) }
{
    let items = items_of_acts(alloc, acts)?;
    part_of(alloc, id, items)
}
