// Behind a call that has ended.
ghost use Rattle.std.specs.Prelude.{◌≡◌, ◌<◌, ◌↔◌, [], ℕ, Some, IfOk, IsTrue, MatchOption, option_map, reverse};
ghost use Rattle.std.specs.Bool.{MatchBool};
ghost use Rattle.cc_line.specs.State.{State};
ghost use Rattle.cc_line.specs.View.{piece_view};
ghost use Rattle.cc_move.specs.Calls.{gives_of};
ghost use Rattle.cc_pieces.specs.Restoring.{first_restore, restore_piece};
ghost use Rattle.cc_spots.specs.Spot.{IsSpot};
ghost use Rattle.mc_inspect.specs.steps.Found.{Tells, one_or_none};
ghost use Rattle.mc_inspect.specs.steps.Read.{HasScores};
ghost use Rattle.mc_inspect.specs.steps.Ways.{AreHandedOver, IsFollowedBy, NoneHandedOver, ShowsLast};

use crate::frames::{callers_of, spot_seen, topped};
use crate::reading::{Reading, Scores};
use cc_line::PieceId;
use cc_spots::CutSpot;
use cc_values::value_of_scores;
use mc_nbt::{Memory, Value};
use std::alloc::Global;
use wm_ast::{FuncType, Module, ValType, are_same};
use wm_valid::Typed;
use wm_view::{FrameView, Inspection};

/// The first number of the pieces that restore the frames of callers.
pub(crate) const FIRST_RESTORE: u32 = 1_048_576;

// Whether a function of this index gives these.
fn gives(m: &Module, func: usize, results: &[ValType]) -> bool
    ensures { IsTrue result ↔ (gives_of m.now func ≡ reverse results.now) }
{
    let Some(f) = m.funcs.get(func) else {
        return results.is_empty();
    };
    match m.types.get(f.kind as usize) {
        Some(ty) => are_same(ty.results.as_slice(), results),
        None => results.is_empty(),
    }
}

// Whether some index is that of a function that gives these; one that isn't there gives nothing.
fn some_gives(m: &Module, results: &[ValType]) -> bool
    ensures { MatchBool result ((n : ℕ) × (gives_of m.now n ≡ reverse results.now))
        ((n : ℕ) → gives_of m.now n ≡ reverse results.now → ⊥) }
{
    for func in 0..m.funcs.len() {
        if gives(m, func, results) {
            return true;
        }
    }
    results.is_empty()
}

// The values of these types that are handed over: none or one.
fn results(types: &[ValType], scores: Scores) -> Option<Option<Value>>
    ensures { (p : State) → HasScores scores p → MatchOption result (NoneHandedOver types.now p)
        (λ o. AreHandedOver types.now (one_or_none o) p) }
{
    match types {
        [] => Some(None),
        [ty] => Some(Some(value_of_scores(*ty, scores.r, scores.q)?)),
        _ => None,
    }
}

/// Whether there is a caller, and this piece follows its call.
pub(crate) fn is_followed(reading: &Reading, piece: PieceId) -> bool
    ensures { IsTrue result ↔ IsFollowedBy (option_map (λ v. v.items) reading.now.entries) (piece_view piece) }
{
    let Some(entries) = &reading.entries else {
        return false;
    };
    match entries.as_slice() {
        [_, .., last] => last.follows == piece,
        _ => false,
    }
}

// What is seen where the last of these frames is at a spot, with a result on top where there is one; none exactly where
// there are no frames.
fn resumed(
    alloc: Global,
    mut frames: Vec<FrameView>,
    top: Option<Value>,
    spot: &CutSpot,
) -> Result<Option<Inspection>, Memory>
    ensures { IfOk result (λ o. MatchOption o (frames.items ≡ [])
        (λ v. ShowsLast frames.items (one_or_none top) spot.now v)) }
{
    let Some(caller) = frames.pop() else {
        return Ok(None);
    };
    let frame = topped(caller, top)?;
    let shown = spot_seen(alloc, frames, frame, spot)?;
    Ok(Some(shown))
}

/// A call of this type has ended, behind which this spot is, that of the cut of this index.
pub(crate) fn behind_call(
    alloc: Global,
    m: &Typed,
    reading: &Reading,
    func: u32,
    index: u32,
    spot: &CutSpot,
    call: &FuncType,
) -> Result<Option<Inspection>, Memory>
    requires { index < first_restore }
    ensures { IfOk result (λ o. IsSpot m.now func index spot.now → spot.now.call ≡ Some call.now
        → Tells m.now reading.now (restore_piece func index) o) }
{
    let types = call.results.as_slice();
    let piece = PieceId::Body {
        func,
        index: FIRST_RESTORE + index,
    };
    if !some_gives(m.module(), types) {
        return Ok(None);
    }
    if !is_followed(reading, piece) {
        return Ok(None);
    }
    let Some(top) = results(types, reading.scores) else {
        return Ok(None);
    };
    let Some(frames) = callers_of(alloc, m, reading, types)? else {
        return Ok(None);
    };
    resumed(alloc, frames, top, spot)
}
