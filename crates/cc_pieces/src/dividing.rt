// Division of i64: the acts with which the piece of a body begins it, the piece that makes turns until none is left,
// and the one that puts the answer to its places.
ghost use Rattle.std.specs.Prelude.{◌≡◌, ◌++◌, true, IfOk, OnOk};
ghost use Rattle.wm_ast.specs.Operator.{divides};
ghost use Rattle.cc_line.specs.Key.{id_tree};
ghost use Rattle.cc_line.specs.Step.{set_site};
ghost use Rattle.cc_line.specs.View.{act_view, items_view, piece_view, step_view};
ghost use Rattle.cc_call.specs.Frames.{next_site};
ghost use Rattle.cc_pieces.specs.Dividing.{answering_items, answering_piece, divided_items, none_left_step};
ghost use Rattle.cc_pieces.specs.Dividing.{turning_items, turning_piece};
ghost use Rattle.cc_pieces.specs.Lists.{listed};
ghost use Rattle.cc_pieces.specs.Parts.{part, part_view};
ghost use Rattle.cc_pieces.specs.View.{list_view};

use crate::fetching::fetch_piece;
use crate::items::{push_act, push_block, push_steps};
use crate::part::{Part, part_of};
use crate::restoring::restore_piece;
use cc_div64::{begin, end, turns};
use cc_line::{
    Act, Check, Cond, Conds, Item, Key, Leaf, PieceId, Scratch, Site, Spot, Step, Store,
};
use mc_cmd::Range;
use mc_nbt::Memory;
use std::alloc::Global;
use wm_ast::BinaryOp;

// ---- pieces

// The piece that makes turns of the division before the cut of this index.
fn turning_piece(func: u32, index: u32) -> Result<PieceId, Memory>
    ensures { IfOk result (λ id. piece_view id ≡ turning_piece func index) }
{
    fetch_piece(func, index, 0)
}

/// The piece that puts its answer to its places.
///
/// # Errors
///
/// `Memory` where its number is 2^32 or more.
pub fn answering_piece(func: u32, index: u32) -> Result<PieceId, Memory>
    ensures { IfOk result (λ id. piece_view id ≡ answering_piece func index) }
{
    restore_piece(func, index)
}

// A piece is next.
fn next_is(id: PieceId) -> Act
    ensures { act_view result ≡ set_site next_site (id_tree (piece_view id)) }
{
    Act::SetSite {
        site: Site::at(Store::Rest, Key::Next),
        leaf: Leaf::Piece(id),
    }
}

// A piece is next where no run of turns is left.
fn none_left_step(id: PieceId) -> Step
    ensures { step_view result ≡ none_left_step (piece_view id) }
{
    let left = Spot::Scratch(Scratch::G);
    let none = Conds::One(Cond::Holds(Check::InRange(left, Range::One(0))));
    Step::When(none, next_is(id))
}

// ---- items

/// A division of the last two operands, which end below this place, is begun. The piece that makes its turns is next,
/// or, where none is left, the one that puts its answer to its places; both stand before the cut that was found.
///
/// # Errors
///
/// `Memory` where there is no room for the items, or a number is 2^31 or more.
pub fn push_divided(
    alloc: Global,
    op: BinaryOp,
    top: u32,
    func: u32,
    found: Option<u32>,
    items: &mut Vec<Item>,
) -> Result<(), Memory>
    requires { divides op ≡ true }
    ensures { OnOk result (list_view items.new.items
        ≡ list_view items.old.items ++ listed (divided_items op top func found)) }
{
    let place = top.saturating_sub(4);
    let index = found.unwrap_or(0);
    let turning = turning_piece(func, index)?;
    let answering = answering_piece(func, index)?;
    push_block(begin(alloc, op, place)?, items)?;
    push_act(next_is(turning), items)?;
    push_steps(&[none_left_step(answering)], items)?;
    Ok(())
}

/// The piece that makes turns of the division before the cut of this index.
///
/// # Errors
///
/// `Memory` where there is no room for it, or a number is 2^31 or more.
pub fn turning_part(alloc: Global, func: u32, index: u32) -> Result<Part, Memory>
    ensures { IfOk result (λ p. part_view p ≡ part (turning_piece func index) (turning_items func index)) }
{
    let id = turning_piece(func, index)?;
    let answering = answering_piece(func, index)?;
    let mut items = Vec::new(alloc);
    push_block(turns(alloc)?, &mut items)?;
    push_steps(&[none_left_step(answering)], &mut items)?;
    let part = part_of(alloc, id, items)?;
    Ok(part)
}

/// The items of the piece that puts its answer to the places below this one.
///
/// # Errors
///
/// `Memory` where there is no room for them, or a number is 2^31 or more.
pub fn answering_items(
    alloc: Global,
    op: BinaryOp,
    top: u32,
    func: u32,
    index: u32,
) -> Result<Vec<Item>, Memory>
    requires { divides op ≡ true }
    ensures { IfOk result (λ v. items_view v.items ≡ answering_items op top func index) }
{
    let place = top.saturating_sub(2);
    let mut items = Vec::new(alloc);
    push_block(end(alloc, op, place)?, &mut items)?;
    push_act(next_is(PieceId::Body { func, index }), &mut items)?;
    Ok(items)
}
