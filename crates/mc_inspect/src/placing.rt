// Before a cut whose last operand is on its way.
ghost use Rattle.std.specs.Prelude.{◌≡◌, ◌+◌, ◌<◌, ◌⊎◌, ◌↔◌, ◌++◌, ◌∷◌, [], ℕ, Some, IfOk, IfSome, IsTrue, MatchOption};
ghost use Rattle.mc_nbt.specs.declared.value.Value as spec;
ghost use Rattle.wm_ast.specs.Types.{const_type};
ghost use Rattle.cc_line.specs.declared.leaf.PieceId.TheVariants as ids;
ghost use Rattle.cc_line.specs.State.{State};
ghost use Rattle.cc_body.specs.Placers.{function_placers};
ghost use Rattle.cc_cut.specs.Law.{widths};
ghost use Rattle.cc_pieces.specs.Placing.{first_pair_placer, first_placer, placer};
ghost use Rattle.cc_spots.specs.Spot.{IsSpot};
ghost use Rattle.mc_inspect.specs.steps.Found.{Tells};
ghost use Rattle.mc_inspect.specs.steps.Placings.{IsPlacedValue};
ghost use Rattle.mc_inspect.specs.steps.Read.{HasScores};

use crate::frames::held;
use crate::growing::cut_that_follows;
use crate::placers::function_placers;
use crate::reading::{Reading, Scores};
use cc_cut::{width, widths};
use cc_line::sum;
use cc_spots::{CutSpot, cut_spot};
use cc_values::value_of_scores;
use mc_nbt::{Memory, Value};
use std::alloc::Global;
use wm_ast::ValType;
use wm_valid::Typed;
use wm_view::Inspection;

// Whether so many places are those of a spot's locals and of operands of these kinds.
fn is_above(spot: &CutSpot, kinds: &[ValType], place: u32) -> Result<bool, Memory>
    ensures { IfOk result (λ b. IsTrue b ↔ (place ≡ widths spot.now.locals + widths kinds.now)) }
{
    let locals = widths(spot.locals.as_slice())?;
    let operands = widths(kinds)?;
    Ok(sum(locals, operands)? == place)
}

// The value of this type and of so many ints that is handed over, where so many places are those under it.
fn placed_value(
    spot: &CutSpot,
    kinds: &[ValType],
    last: ValType,
    ints: u32,
    place: u32,
    scores: Scores,
) -> Result<Option<Value>, Memory>
    ensures placed { IfOk result (λ o. (p : State) → HasScores scores p → MatchOption o
        ((v : spec.Value) → IsPlacedValue spot.now kinds.now last ints place v p → ⊥)
        (λ v. IsPlacedValue spot.now kinds.now last ints place v p)) }
    ensures kind { IfOk result (λ o. IfSome o (λ v. const_type v ≡ last)) }
{
    if width(last) != ints {
        return Ok(None);
    }
    if !is_above(spot, kinds, place)? {
        return Ok(None);
    }
    Ok(value_of_scores(last, scores.r, scores.q))
}

// The kind of the last operand, and those under it.
fn last_kind(kinds: &[ValType]) -> Option<(&[ValType], ValType)>
    ensures { MatchOption result (kinds.now ≡ []) (λ x. kinds.now ≡ x.0.now ++ x.1 ∷ []) }
{
    match kinds {
        [others @ .., last] => Some((others, *last)),
        [] => None,
    }
}

// A value of so many ints is on its way to this place, and the cut of this spot follows.
fn placing_at(
    alloc: Global,
    m: &Typed,
    reading: &Reading,
    func: u32,
    spot: &CutSpot,
    ints: u32,
    place: u32,
) -> Result<Option<Inspection>, Memory>
    requires few { (ints ≡ 1) ⊎ (ints ≡ 2) }
    requires low { first_placer + place < first_pair_placer }
    requires in_frame { place < function_placers m.now func }
    ensures { IfOk result (λ o. (index : ℕ) → IsSpot m.now func index spot.now
        → reading.now.follows ≡ Some (ids.Body func index) → Tells m.now reading.now (placer ints place) o) }
{
    let Some((kinds, last)) = last_kind(spot.kinds.as_slice()) else {
        return Ok(None);
    };
    match placed_value(spot, kinds, last, ints, place, reading.scores)? {
        Some(value) => held(alloc, m, reading, func, spot, kinds, Some(value)),
        None => Ok(None),
    }
}

/// The piece of this number is next that puts a value of so many ints to its place.
pub(crate) fn placing(
    alloc: Global,
    m: &Typed,
    reading: &Reading,
    ints: u32,
    place: u32,
) -> Result<Option<Inspection>, Memory>
    requires few { (ints ≡ 1) ⊎ (ints ≡ 2) }
    requires low { first_placer + place < first_pair_placer }
    ensures { IfOk result (Tells m.now reading.now (placer ints place)) }
{
    let Some((func, index)) = cut_that_follows(reading) else {
        return Ok(None);
    };
    let Some(spot) = cut_spot(alloc, m, func, index)? else {
        return Ok(None);
    };
    if place >= function_placers(alloc, m, func, spot.size)? {
        return Ok(None);
    }
    placing_at(alloc, m, reading, func, &spot, ints, place)
}
