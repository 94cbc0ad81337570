// The pieces with which calls begin, and those with which jobs end.
ghost use Rattle.std.specs.Prelude.{◌≡◌, ◌++◌, ◌+◌, ◌*◌, IfOk, OnOk};
ghost use Rattle.cc_line.specs.Item.{no_more};
ghost use Rattle.cc_line.specs.Key.{body_piece};
ghost use Rattle.cc_line.specs.View.{items_view, piece_view, site_view};
ghost use Rattle.cc_call.specs.Acts.{acts_then};
ghost use Rattle.cc_call.specs.Frames.{done_piece as done};
ghost use Rattle.cc_pieces.specs.Entry.{arg_at, done_items, entry_acts, go_acts, take_args, taker, taker_acts};
ghost use Rattle.cc_pieces.specs.Entry.{taker_items};
ghost use Rattle.cc_pieces.specs.Fetching.{opened_acts};
ghost use Rattle.cc_pieces.specs.Parts.{done_parts, part, part_view, parts_view, taker_parts};
ghost use Rattle.cc_call.specs.View.{acts_view};

use crate::fetching::are_many;
use crate::items::items_of_acts;
use crate::part::{Part, part_of_acts};
use crate::shape::{Shape, product};
use cc_call::{begin_frames, done_piece, end_job, make_frame, open_frame, push_next, push_zeros};
use cc_line::{
    Act, Below, Item, Key, Leaf, Part as Place, PieceId, SCORE_PLACES, Site, Store, int_of, sum,
};
use cc_sched::end_rounds;
use mc_nbt::Memory;
use std::alloc::Global;

/// So many arguments are taken by one piece.
pub const ARGS_OF_PIECE: u32 = 192;

// The indices of the shared pieces that take arguments count from here on.
const FIRST_TAKER: u32 = 5000;

// An argument.
fn arg_at(index: u32) -> Result<Site, Memory>
    ensures { IfOk result (λ p. site_view p ≡ arg_at index) }
{
    let at = int_of(index)?;
    Ok(Site {
        store: Store::Rest,
        key: Key::Args,
        below: Below::One(Place::Place(at)),
    })
}

// So many arguments are taken, from this one on.
fn push_takes(from: u32, count: u32, acts: &mut Vec<Act>) -> Result<(), Memory>
    ensures { OnOk result (acts_view acts.new.items ≡ acts_view acts.old.items ++ take_args from count) }
{
    for index in 0..count {
        let place = sum(from, index)?;
        let site = arg_at(place)?;
        acts.push(Act::SiteToPlace { place, site })?;
    }
    Ok(())
}

// The shared piece of arguments of this number.
fn taker(number: u32) -> Result<PieceId, Memory>
    ensures { IfOk result (λ id. piece_view id ≡ taker number) }
{
    let index = sum(FIRST_TAKER, number)?;
    Ok(PieceId::Shared { index })
}

// With so many whole pieces of arguments to come, where to go.
fn push_go(func: u32, takers: u32, acts: &mut Vec<Act>) -> Result<(), Memory>
    ensures { OnOk result (acts_view acts.new.items ≡ acts_view acts.old.items ++ go_acts func takers) }
{
    let first = PieceId::Body { func, index: 1 };
    if takers == 0 {
        push_next(first, acts)?;
        return Ok(());
    }
    acts.push(Act::SetSite {
        site: Site::at(Store::Rest, Key::Follows),
        leaf: Leaf::Piece(first),
    })?;
    push_next(taker(takers - 1)?, acts)?;
    Ok(())
}

// The acts of the first piece of a function of this shape, with so many places of results.
fn entry_acts(alloc: Global, func: u32, shape: Shape, results: u32) -> Result<Vec<Act>, Memory>
    ensures { IfOk result (λ acts. acts_view acts.items
        ≡ entry_acts func shape.params shape.locals results shape.size) }
{
    let Shape {
        params,
        locals,
        size,
        ..
    } = shape;
    let takers = params / ARGS_OF_PIECE;
    let others = locals.min(SCORE_PLACES).saturating_sub(params);
    let mut acts = Vec::new(alloc);
    begin_frames(results, &mut acts)?;
    acts.push(Act::MakeZeros {
        count: size.saturating_sub(SCORE_PLACES),
    })?;
    push_zeros(params, others, &mut acts)?;
    push_takes(ARGS_OF_PIECE * takers, params % ARGS_OF_PIECE, &mut acts)?;
    push_go(func, takers, &mut acts)?;
    Ok(acts)
}

/// The first piece of a function of this shape, with so many places of results: a call from outside begins with it.
///
/// # Errors
///
/// `Memory` where there is no room for it, or a number is 2^31 or more.
pub fn entry_part(alloc: Global, func: u32, shape: Shape, results: u32) -> Result<Part, Memory>
    ensures { IfOk result (λ p. part_view p ≡ part (body_piece func 0)
        (acts_then (entry_acts func shape.params shape.locals results shape.size) no_more)) }
{
    let acts = entry_acts(alloc, func, shape, results)?;
    part_of_acts(alloc, PieceId::Body { func, index: 0 }, acts.as_slice())
}

// The frame of a function of this shape is made, over its arguments, or before these are fetched.
fn push_opened(func: u32, shape: Shape, acts: &mut Vec<Act>) -> Result<(), Memory>
    ensures { OnOk result (acts_view acts.new.items ≡ acts_view acts.old.items
        ++ opened_acts shape.params shape.locals shape.size (body_piece func 1)) }
{
    let Shape {
        params,
        locals,
        size,
        ..
    } = shape;
    let first = PieceId::Body { func, index: 1 };
    if are_many(params) {
        make_frame(params, locals, size, first, acts)
    } else {
        open_frame(params, locals, size, first, acts)
    }
}

/// The items of the piece that makes the frame of a function of this shape in a call from inside.
///
/// # Errors
///
/// `Memory` where there is no room for them, or a number is 2^31 or more.
pub fn opening_items(alloc: Global, func: u32, shape: Shape) -> Result<Vec<Item>, Memory>
    ensures { IfOk result (λ v. items_view v.items
        ≡ acts_then (opened_acts shape.params shape.locals shape.size (body_piece func 1)) no_more) }
{
    let mut acts = Vec::new(alloc);
    push_opened(func, shape, &mut acts)?;
    items_of_acts(alloc, acts.as_slice())
}

// The piece that ends a job with so many places of results.
fn done_part(alloc: Global, results: u32) -> Result<Part, Memory>
    ensures { IfOk result (λ p. part_view p ≡ part (done results) (done_items results)) }
{
    let mut acts = Vec::new(alloc);
    end_job(results, &mut acts)?;
    acts.push(end_rounds())?;
    part_of_acts(alloc, done_piece(results), acts.as_slice())
}

// The acts of the shared piece of arguments of this number.
fn taker_acts(alloc: Global, number: u32) -> Result<Vec<Act>, Memory>
    ensures { IfOk result (λ acts. acts_view acts.items ≡ taker_acts number) }
{
    let mut acts = Vec::new(alloc);
    if number == 0 {
        push_takes(0, ARGS_OF_PIECE, &mut acts)?;
        acts.push(Act::CopySite {
            to: Site::at(Store::Rest, Key::Next),
            from: Site::at(Store::Rest, Key::Follows),
        })?;
        return Ok(acts);
    }
    let from = product(number, ARGS_OF_PIECE)?;
    push_takes(from, ARGS_OF_PIECE, &mut acts)?;
    push_next(taker(number - 1)?, &mut acts)?;
    Ok(acts)
}

// The shared piece of arguments of this number.
fn taker_part(alloc: Global, number: u32) -> Result<Part, Memory>
    ensures { IfOk result (λ p. part_view p ≡ part (taker number) (taker_items number)) }
{
    let acts = taker_acts(alloc, number)?;
    part_of_acts(alloc, taker(number)?, acts.as_slice())
}

/// Adds the first so many of the shared pieces that take arguments.
///
/// # Errors
///
/// `Memory` where there is no room for them, or a number is 2^31 or more.
pub fn push_takers(alloc: Global, count: u32, parts: &mut Vec<Part>) -> Result<(), Memory>
    ensures { OnOk result (parts_view parts.new.items ≡ parts_view parts.old.items ++ taker_parts count) }
{
    for number in 0..count {
        parts.push(taker_part(alloc, number)?)?;
    }
    Ok(())
}

/// Adds the pieces that end jobs, with no results, with one int, and with the two of an i64.
///
/// # Errors
///
/// `Memory` where there is no room for them.
pub fn push_dones(alloc: Global, parts: &mut Vec<Part>) -> Result<(), Memory>
    ensures { OnOk result (parts_view parts.new.items ≡ parts_view parts.old.items ++ done_parts) }
{
    parts.push(done_part(alloc, 0)?)?;
    parts.push(done_part(alloc, 1)?)?;
    parts.push(done_part(alloc, 2)?)?;
    Ok(())
}
