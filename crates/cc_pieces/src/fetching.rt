// The pieces that fetch the arguments of a call, where they are too many for the piece of the call to pass them.
ghost use Rattle.std.specs.Prelude.{◌≡◌, ◌++◌, IfOk, OnOk};
ghost use Rattle.cc_line.specs.View.{piece_view};
ghost use Rattle.cc_call.specs.View.{acts_view};
ghost use Rattle.cc_pieces.specs.Fetching.{are_many, fetch_piece, fetched_acts, fetches, fetching_acts, fetching_items};
ghost use Rattle.cc_pieces.specs.Parts.{fetching_parts, part, part_view, parts_view};

use crate::part::{Part, part_of_acts};
use crate::shape::product;
use cc_call::{fetch_arguments, push_followed, push_next};
use cc_line::{Act, PieceId, sum};
use mc_nbt::Memory;
use std::alloc::Global;

// The piece of a call passes so many places of arguments.
const MOST_PASSED: u32 = 17;

// So many are fetched by one piece.
const ARGS_OF_FETCH: u32 = 304;

// A call has so many of these pieces at most.
const MOST_FETCHES: u32 = 8;

// They count from here on among those of a body.
const FIRST_FETCH: u32 = 2_097_152;

/// Whether so many places of arguments are fetched, and not passed.
pub fn are_many(params: u32) -> bool
    ensures { result ≡ are_many params }
{
    params > MOST_PASSED
}

// How many pieces fetch so many places of arguments.
fn fetches(params: u32) -> Result<u32, Memory>
    ensures { IfOk result (λ n. n ≡ fetches params) }
{
    if !are_many(params) {
        return Ok(0);
    }
    let rounded = sum(params, ARGS_OF_FETCH - 1)?;
    Ok(rounded / ARGS_OF_FETCH)
}

/// The piece of this number that fetches the arguments of the call before the cut of this index.
///
/// # Errors
///
/// `Memory` where its number is 2^32 or more.
pub fn fetch_piece(func: u32, index: u32, number: u32) -> Result<PieceId, Memory>
    ensures { IfOk result (λ id. piece_view id ≡ fetch_piece func index number) }
{
    let before = product(MOST_FETCHES, index)?;
    let of_all = sum(before, number)?;
    let index = sum(FIRST_FETCH, of_all)?;
    Ok(PieceId::Body { func, index })
}

// Where the piece of this number leads, of those that fetch so many places of arguments.
fn push_fetched(
    func: u32,
    index: u32,
    number: u32,
    params: u32,
    acts: &mut Vec<Act>,
) -> Result<(), Memory>
    ensures { OnOk result (acts_view acts.new.items
        ≡ acts_view acts.old.items ++ fetched_acts params func index number) }
{
    let next = sum(number, 1)?;
    let done = product(ARGS_OF_FETCH, next)?;
    if done < params {
        push_next(fetch_piece(func, index, next)?, acts)
    } else {
        push_followed(acts)
    }
}

// The acts of the piece of this number, where the caller needs so many places again.
fn fetching_acts(
    alloc: Global,
    func: u32,
    index: u32,
    number: u32,
    in_use: u32,
    params: u32,
) -> Result<Vec<Act>, Memory>
    ensures { IfOk result (λ acts. acts_view acts.items ≡ fetching_acts in_use params func index number) }
{
    let done = product(ARGS_OF_FETCH, number)?;
    let count = ARGS_OF_FETCH.min(params.saturating_sub(done));
    let mut acts = Vec::new(alloc);
    fetch_arguments(sum(in_use, done)?, done, count, &mut acts)?;
    push_fetched(func, index, number, params, &mut acts)?;
    Ok(acts)
}

fn fetching_part(
    alloc: Global,
    func: u32,
    index: u32,
    number: u32,
    in_use: u32,
    params: u32,
) -> Result<Part, Memory>
    ensures { IfOk result (λ p. part_view p
        ≡ part (fetch_piece func index number) (fetching_items in_use params func index number)) }
{
    let acts = fetching_acts(alloc, func, index, number, in_use, params)?;
    part_of_acts(alloc, fetch_piece(func, index, number)?, acts.as_slice())
}

/// Adds the pieces that fetch so many places of arguments of the call before the cut of this index, where the caller
/// needs so many places again.
///
/// # Errors
///
/// `Memory` where there is no room for them, or a number is 2^31 or more.
pub fn push_fetching(
    alloc: Global,
    func: u32,
    index: u32,
    in_use: u32,
    params: u32,
    parts: &mut Vec<Part>,
) -> Result<(), Memory>
    ensures { OnOk result (parts_view parts.new.items
        ≡ parts_view parts.old.items ++ fetching_parts in_use params func index (fetches params)) }
{
    for number in 0..fetches(params)? {
        parts.push(fetching_part(alloc, func, index, number, in_use, params)?)?;
    }
    Ok(())
}
