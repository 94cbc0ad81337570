// A call from outside, whose first frame isn't made yet.
ghost use Rattle.std.specs.Prelude.{◌≡◌, ◌<◌, ◌↔◌, ◌∷◌, [], ℤ, List, Some, None, IfOk, IsTrue, option_map};
ghost use Rattle.std.specs.Bool.{MatchBool};
ghost use Rattle.cc_line.specs.Key.{body_piece};
ghost use Rattle.cc_line.specs.State.{State};
ghost use Rattle.cc_pieces.specs.Entry.{taker};
ghost use Rattle.cc_pieces.specs.Law.{most_takers};
ghost use Rattle.cc_call.specs.Frames.{base};
ghost use Rattle.cc_call.specs.Law.{IsBelow};
ghost use Rattle.cc_cut.specs.Law.{widths};
ghost use Rattle.cc_move.specs.Calls.{gives_of};
ghost use Rattle.wm_flat.specs.Program.{IsProgram};
ghost use Rattle.mc_inspect.specs.steps.Found.{Enters, Takes, TellsOfCall, call_seen};
ghost use Rattle.mc_inspect.specs.steps.Openings.{AreTaken};
ghost use Rattle.mc_inspect.specs.steps.Read.{IsReading};

use crate::beginnings::{beginning, type_of};
use crate::frames::callers_of;
use crate::reading::Reading;
use cc_spots::cut_spot;
use mc_nbt::Memory;
use pk_callers::results_of;
use std::alloc::Global;
use wm_ast::{Items, Module};
use wm_valid::Typed;
use wm_view::Inspection;

// So many arguments are taken by each piece.
const ARGS_OF_PIECE: usize = 192;

/// What is seen of a call that begins: no frame, and a call as the next instruction.
pub(crate) fn call_seen(alloc: Global) -> Inspection
    ensures { result ≡ call_seen }
{
    Inspection {
        frames: Items::new(alloc),
        next: Some(0x10),
        left: Items::new(alloc),
    }
}

// Whether arguments are handed in.
fn has_args(reading: &Reading) -> bool
    ensures { MatchBool result ((zs : List ℤ) × (option_map (λ v. v.items) reading.now.args ≡ Some zs))
        (option_map (λ v. v.items) reading.now.args ≡ None) }
{
    match &reading.args {
        Some(_) => true,
        None => false,
    }
}

/// Whether the function of this index is called, and its first piece is next.
pub(crate) fn enters(m: &Module, reading: &Reading, func: u32) -> bool
    ensures { TellsOfCall m.now reading.now (body_piece func 0) (Enters m.now) result }
{
    if type_of(m, func).is_none() {
        return false;
    }
    has_args(reading)
}

// Whether the last of these ints, from this one on, are places of the frame from there on.
fn are_taken(places: &[i32], ints: &[i32], from: usize) -> bool
    ensures { IsTrue result ↔ AreTaken places.now ints.now from }
{
    match (places.get(from..), ints.get(from..)) {
        (Some(behind), Some(others)) => behind.starts_with(others),
        _ => false,
    }
}

// Whether a function of these results is the outermost.
fn is_outermost(alloc: Global, m: &Typed, reading: &Reading, func: u32) -> Result<bool, Memory>
    ensures { IfOk result (λ b. IsProgram m.now → (p : State) → IsReading reading.now p
        → IsTrue b ↔ IsBelow (base (widths (gives_of m.now func)) ∷ []) p) }
{
    let gives = results_of(alloc, m.module(), func)?;
    let Some(frames) = callers_of(alloc, m, reading, gives.as_slice())? else {
        return Ok(false);
    };
    Ok(frames.is_empty())
}

/// Whether the piece of this number takes arguments of a call.
pub(crate) fn takes(
    alloc: Global,
    m: &Typed,
    reading: &Reading,
    number: u32,
) -> Result<bool, Memory>
    requires { number < most_takers }
    ensures { IfOk result (TellsOfCall m.now reading.now (taker number) (Takes m.now)) }
{
    let Some(func) = beginning(reading) else {
        return Ok(false);
    };
    let Some(args) = &reading.args else {
        return Ok(false);
    };
    if type_of(m.module(), func).is_none() {
        return Ok(false);
    }
    if !is_outermost(alloc, m, reading, func)? {
        return Ok(false);
    }
    let Some(spot) = cut_spot(alloc, m, func, 1)? else {
        return Ok(false);
    };
    let places = reading.places.as_slice();
    if places.len() != spot.size as usize {
        return Ok(false);
    }
    let from = ARGS_OF_PIECE * (number as usize + 1);
    Ok(are_taken(places, args.as_slice(), from))
}
