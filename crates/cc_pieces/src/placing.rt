// The pieces that put the value of a branch to its place, where a long br_table has looked up where it leads.
ghost use Rattle.std.specs.Prelude.{◌≡◌, ◌+◌, ◌++◌, pos, IfOk, OnOk};
ghost use Rattle.cc_line.specs.View.{piece_view};
ghost use Rattle.cc_pieces.specs.Parts.{part, part_view, parts_view, placer_parts};
ghost use Rattle.cc_pieces.specs.Placing.{placer, placer_items, placers_from};

use crate::part::{Part, part_of_acts};
use cc_call::push_takes;
use cc_line::{Act, Key, PieceId, Site, Store, int_of, sum};
use mc_nbt::Memory;
use std::alloc::Global;

// The indices of the shared pieces that put a value to its places count from here on: of values of one int, and of two.
const FIRST_PLACER: u32 = 20_000;

const FIRST_PAIR_PLACER: u32 = 25_000;

// Those of values of so many ints.
fn placers_from(ints: u32) -> u32
    ensures { result ≡ placers_from ints }
{
    if ints > 1 {
        FIRST_PAIR_PLACER
    } else {
        FIRST_PLACER
    }
}

/// The number of the shared piece that puts a value of so many ints to the places from this one on.
///
/// # Errors
///
/// `Memory` where it is 2^31 or more.
pub fn placer_number(ints: u32, place: u32) -> Result<i32, Memory>
    ensures { IfOk result (λ z. z ≡ pos (placers_from ints + place)) }
{
    int_of(sum(placers_from(ints), place)?)
}

fn placer(ints: u32, place: u32) -> Result<PieceId, Memory>
    ensures { IfOk result (λ id. piece_view id ≡ placer ints place) }
{
    let index = sum(placers_from(ints), place)?;
    Ok(PieceId::Shared { index })
}

// The shared piece that puts a value of so many ints to the places from this one on.
fn placer_part(alloc: Global, ints: u32, place: u32) -> Result<Part, Memory>
    ensures { IfOk result (λ p. part_view p ≡ part (placer ints place) (placer_items ints place)) }
{
    let mut acts = Vec::new(alloc);
    push_takes(ints, place, &mut acts)?;
    acts.push(Act::CopySite {
        to: Site::at(Store::Rest, Key::Next),
        from: Site::at(Store::Rest, Key::Follows),
    })?;
    part_of_acts(alloc, placer(ints, place)?, acts.as_slice())
}

/// Adds the first so many of these pieces.
///
/// # Errors
///
/// `Memory` where there is no room for them, or a number is 2^31 or more.
pub fn push_placers(
    alloc: Global,
    ints: u32,
    count: u32,
    parts: &mut Vec<Part>,
) -> Result<(), Memory>
    ensures { OnOk result (parts_view parts.new.items ≡ parts_view parts.old.items ++ placer_parts ints count) }
{
    for place in 0..count {
        parts.push(placer_part(alloc, ints, place)?)?;
    }
    Ok(())
}
