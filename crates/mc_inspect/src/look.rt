// For what a state stands that names a piece and has what was read.
ghost use Rattle.std.specs.Prelude.{◌≡◌, ◌<◌, ◌≤◌, ◌+◌, ℕ, pos, Some, None, IfOk, MatchOption};
ghost use Rattle.cc_line.specs.Key.{body_piece, shared_piece};
ghost use Rattle.cc_line.specs.View.{piece_view};
ghost use Rattle.cc_call.specs.Frames.{first_opening};
ghost use Rattle.cc_pieces.specs.Entry.{first_taker};
ghost use Rattle.cc_pieces.specs.Fetching.{fetch_piece, first_fetch, most_fetches};
ghost use Rattle.cc_pieces.specs.Growing.{grower_index};
ghost use Rattle.cc_pieces.specs.Law.{most_takers};
ghost use Rattle.cc_pieces.specs.Placing.{first_pair_placer, first_placer};
ghost use Rattle.cc_pieces.specs.Restoring.{first_restore, restore_piece};
ghost use Rattle.cc_div64.specs.Division.{score_left};
ghost use Rattle.cc_line.specs.State.{State};
ghost use Rattle.cc_spots.specs.Spot.{IsSpot};
ghost use Rattle.mc_inspect.specs.steps.Found.{IsOutside, Places, Tells, TellsOfCall};
ghost use Rattle.mc_inspect.specs.steps.Read.{IsReading};

use crate::beginnings::{FIRST_FETCH, MOST_FETCHES, fetching, opening};
use crate::calls::{FIRST_RESTORE, behind_call};
use crate::cuts::at_cut;
use crate::divisions::behind_division;
use crate::growing::growing;
use crate::outside::{call_seen, enters, takes};
use crate::placing::placing;
use crate::reading::Reading;
use cc_line::PieceId;
use cc_spots::{CutSpot, cut_spot};
use mc_nbt::Memory;
use std::alloc::Global;
use wm_ast::{BinaryOp, Module};
use wm_valid::Typed;
use wm_view::Inspection;

// The numbers of shared pieces: those that take arguments, that make frames, that put values of one int or of two to
// their places, and the one that appends pages.
const FIRST_TAKER: u32 = 5_000;

const MOST_TAKERS: u32 = 11;

const FIRST_OPENING: u32 = 10_016;

const FIRST_PLACER: u32 = 20_000;

const FIRST_PAIR_PLACER: u32 = 25_000;

const GROWER: u32 = 30_000;

// A call has ended, if this spot is behind one.
fn behind_some_call(
    alloc: Global,
    m: &Typed,
    reading: &Reading,
    func: u32,
    index: u32,
    spot: &CutSpot,
) -> Result<Option<Inspection>, Memory>
    requires { index < first_restore }
    ensures { IfOk result (λ o. IsSpot m.now func index spot.now → spot.now.division ≡ None
        → Tells m.now reading.now (restore_piece func index) o) }
{
    match &spot.call {
        Some(call) => behind_call(alloc, m, reading, func, index, spot, call),
        None => Ok(None),
    }
}

// The piece is next that stands before the cut of this spot.
fn before_spot(
    alloc: Global,
    m: &Typed,
    reading: &Reading,
    func: u32,
    index: u32,
    spot: &CutSpot,
) -> Result<Option<Inspection>, Memory>
    requires { index < first_restore }
    ensures { IfOk result (λ o. IsSpot m.now func index spot.now → Tells m.now reading.now (restore_piece func index) o) }
{
    match spot.division {
        Some(op) => behind_division(alloc, m, reading, func, spot, op, 0),
        None => behind_some_call(alloc, m, reading, func, index, spot),
    }
}

// The piece is next that stands before the cut of this index.
fn before_cut(
    alloc: Global,
    m: &Typed,
    reading: &Reading,
    func: u32,
    index: u32,
) -> Result<Option<Inspection>, Memory>
    requires { index < first_restore }
    ensures { IfOk result (Tells m.now reading.now (restore_piece func index)) }
{
    let Some(spot) = cut_spot(alloc, m, func, index)? else {
        return Ok(None);
    };
    before_spot(alloc, m, reading, func, index, &spot)
}

// How many times eight turns are left of a division, where some are, and where no piece has fetched arguments.
fn turns_left(reading: &Reading, count: u32) -> Option<u32>
    ensures { (p : State) → IsReading reading.now p → MatchOption result
        ((k : ℕ) → 0 < k → k ≤ 8 → count ≡ 0 → p.scores score_left ≡ Some (pos k) → ⊥)
        (λ k. (0 < k) × (k ≤ 8) × (count ≡ 0) × (reading.now.scores.g ≡ Some (pos k))) }
{
    if count > 0 {
        return None;
    }
    match reading.scores.g {
        Some(z) => {
            if z > 0 && z <= 8 {
                Some(z as u32)
            } else {
                None
            }
        }
        None => None,
    }
}

// Turns are left of the division behind which this spot is.
fn turning(
    alloc: Global,
    m: &Typed,
    reading: &Reading,
    func: u32,
    spot: &CutSpot,
    op: BinaryOp,
    count: u32,
) -> Result<Option<Inspection>, Memory>
    requires { count < most_fetches }
    ensures { IfOk result (λ o. (index : ℕ) → index < first_restore → IsSpot m.now func index spot.now
        → spot.now.division ≡ Some op → Tells m.now reading.now (fetch_piece func index count) o) }
{
    match turns_left(reading, count) {
        Some(left) => behind_division(alloc, m, reading, func, spot, op, left),
        None => Ok(None),
    }
}

// One of the pieces is next that are run more often before the cut of this spot.
fn on_way_to_spot(
    alloc: Global,
    m: &Typed,
    reading: &Reading,
    func: u32,
    index: u32,
    count: u32,
    spot: &CutSpot,
) -> Result<Option<Inspection>, Memory>
    requires low { index < first_restore }
    requires few { count < most_fetches }
    ensures { IfOk result (λ o. IsSpot m.now func index spot.now → Tells m.now reading.now (fetch_piece func index count) o) }
{
    match spot.division {
        Some(op) => turning(alloc, m, reading, func, spot, op, count),
        None => fetching(alloc, m, reading, func, index, count),
    }
}

// One of the pieces is next that are run more often before the cut of this index.
fn on_the_way(
    alloc: Global,
    m: &Typed,
    reading: &Reading,
    func: u32,
    index: u32,
    count: u32,
) -> Result<Option<Inspection>, Memory>
    requires low { index < first_restore }
    requires few { count < most_fetches }
    ensures { IfOk result (Tells m.now reading.now (fetch_piece func index count)) }
{
    let Some(spot) = cut_spot(alloc, m, func, index)? else {
        return Ok(None);
    };
    on_way_to_spot(alloc, m, reading, func, index, count, &spot)
}

// A piece of this number is next that stands before a cut.
fn before_number(
    alloc: Global,
    m: &Typed,
    reading: &Reading,
    func: u32,
    index: u32,
) -> Result<Option<Inspection>, Memory>
    requires least { first_restore ≤ index }
    requires most { index < first_fetch }
    ensures { IfOk result (Tells m.now reading.now (body_piece func index)) }
{
    before_cut(alloc, m, reading, func, index - FIRST_RESTORE)
}

// The piece is next that is run before a cut, with so many like it before.
fn on_way_to(
    alloc: Global,
    m: &Typed,
    reading: &Reading,
    func: u32,
    index: u32,
    count: u32,
) -> Result<Option<Inspection>, Memory>
    requires { count < most_fetches }
    ensures { IfOk result (Tells m.now reading.now (fetch_piece func index count)) }
{
    if index < FIRST_RESTORE {
        on_the_way(alloc, m, reading, func, index, count)
    } else {
        Ok(None)
    }
}

// A piece of this number is next that is run more often before a cut.
fn on_way_number(
    alloc: Global,
    m: &Typed,
    reading: &Reading,
    func: u32,
    index: u32,
) -> Result<Option<Inspection>, Memory>
    requires { first_fetch ≤ index }
    ensures { IfOk result (Tells m.now reading.now (body_piece func index)) }
{
    let number = index - FIRST_FETCH;
    on_way_to(
        alloc,
        m,
        reading,
        func,
        number / MOST_FETCHES,
        number % MOST_FETCHES,
    )
}

// A piece of the function of this index is next, and not its first one.
fn in_body(
    alloc: Global,
    m: &Typed,
    reading: &Reading,
    func: u32,
    index: u32,
) -> Result<Option<Inspection>, Memory>
    ensures { IfOk result (Tells m.now reading.now (body_piece func index)) }
{
    if index < FIRST_RESTORE {
        at_cut(alloc, m, reading, func, index)
    } else if index < FIRST_FETCH {
        before_number(alloc, m, reading, func, index)
    } else {
        on_way_number(alloc, m, reading, func, index)
    }
}

// A shared piece is next that makes a frame.
fn opening_number(
    alloc: Global,
    m: &Typed,
    reading: &Reading,
    index: u32,
) -> Result<Option<Inspection>, Memory>
    requires least { first_opening ≤ index }
    requires most { index < first_placer }
    ensures { IfOk result (Tells m.now reading.now (shared_piece index)) }
{
    opening(alloc, m, reading, index - FIRST_OPENING)
}

// A shared piece is next that puts a value of one int to its place.
fn placing_number(
    alloc: Global,
    m: &Typed,
    reading: &Reading,
    index: u32,
) -> Result<Option<Inspection>, Memory>
    requires least { first_placer ≤ index }
    requires most { index < first_pair_placer }
    ensures { IfOk result (Tells m.now reading.now (shared_piece index)) }
{
    placing(alloc, m, reading, 1, index - FIRST_PLACER)
}

// A shared piece is next that puts a value of two ints to its place.
fn pair_number(
    alloc: Global,
    m: &Typed,
    reading: &Reading,
    index: u32,
) -> Result<Option<Inspection>, Memory>
    requires least { first_pair_placer ≤ index }
    requires most { index < grower_index }
    ensures { IfOk result (Tells m.now reading.now (shared_piece index)) }
{
    placing(alloc, m, reading, 2, index - FIRST_PAIR_PLACER)
}

// A shared piece is next that puts a value to its place, or appends pages.
fn placing_or_growing(
    alloc: Global,
    m: &Typed,
    reading: &Reading,
    index: u32,
) -> Result<Option<Inspection>, Memory>
    requires least { first_placer ≤ index }
    requires most { index ≤ grower_index }
    ensures { IfOk result (Tells m.now reading.now (shared_piece index)) }
{
    if index < FIRST_PAIR_PLACER {
        placing_number(alloc, m, reading, index)
    } else if index < GROWER {
        pair_number(alloc, m, reading, index)
    } else {
        growing(alloc, m, reading)
    }
}

// A shared piece is next, and none that takes arguments.
fn shared(
    alloc: Global,
    m: &Typed,
    reading: &Reading,
    index: u32,
) -> Result<Option<Inspection>, Memory>
    ensures { IfOk result (Tells m.now reading.now (shared_piece index)) }
{
    if index < FIRST_OPENING {
        Ok(None)
    } else if index < FIRST_PLACER {
        opening_number(alloc, m, reading, index)
    } else if index <= GROWER {
        placing_or_growing(alloc, m, reading, index)
    } else {
        Ok(None)
    }
}

// Whether a call from outside begins, where this piece of a function is next.
fn enters_at(m: &Module, reading: &Reading, func: u32, index: u32) -> bool
    ensures { TellsOfCall m.now reading.now (body_piece func index) (IsOutside m.now) result }
{
    if index == 0 {
        enters(m, reading, func)
    } else {
        false
    }
}

// The piece that takes arguments, by its number among the shared ones.
fn taker_of(index: u32) -> Option<u32>
    ensures { MatchOption result ((k : ℕ) → k < most_takers → index ≡ first_taker + k → ⊥)
        (λ k. (k < most_takers) × (index ≡ first_taker + k)) }
{
    let number = index.checked_sub(FIRST_TAKER)?;
    if number < MOST_TAKERS {
        Some(number)
    } else {
        None
    }
}

// Whether a call takes its arguments, where this shared piece is next.
fn takes_at(alloc: Global, m: &Typed, reading: &Reading, index: u32) -> Result<bool, Memory>
    ensures { IfOk result (TellsOfCall m.now reading.now (shared_piece index) (IsOutside m.now)) }
{
    match taker_of(index) {
        Some(number) => takes(alloc, m, reading, number),
        None => Ok(false),
    }
}

// Whether a call from outside is at this piece, with no frame made.
fn is_outside(alloc: Global, m: &Typed, reading: &Reading, piece: PieceId) -> Result<bool, Memory>
    ensures { IfOk result (TellsOfCall m.now reading.now (piece_view piece) (IsOutside m.now)) }
{
    match piece {
        PieceId::Body { func, index } => Ok(enters_at(m.module(), reading, func, index)),
        PieceId::Shared { index } => takes_at(alloc, m, reading, index),
        PieceId::Init { .. } => Ok(false),
        PieceId::End { .. } => Ok(false),
    }
}

// What is seen of the activation for which the state stands.
fn inside(
    alloc: Global,
    m: &Typed,
    reading: &Reading,
    piece: PieceId,
) -> Result<Option<Inspection>, Memory>
    ensures { IfOk result (Tells m.now reading.now (piece_view piece)) }
{
    match piece {
        PieceId::Body { func, index } => in_body(alloc, m, reading, func, index),
        PieceId::Shared { index } => shared(alloc, m, reading, index),
        PieceId::Init { .. } => Ok(None),
        PieceId::End { .. } => Ok(None),
    }
}

/// What is seen where this piece is next; none exactly where the state stands for nothing.
pub(crate) fn look(
    alloc: Global,
    m: &Typed,
    reading: &Reading,
    piece: PieceId,
) -> Result<Option<Inspection>, Memory>
    ensures { IfOk result (Places m.now reading.now (piece_view piece)) }
{
    if is_outside(alloc, m, reading, piece)? {
        return Ok(Some(call_seen(alloc)));
    }
    inside(alloc, m, reading, piece)
}
