// At the beginning of a function that was called: its frame is to be made, or arguments are to be fetched into it.
ghost use Rattle.std.specs.Prelude.{◌≡◌, ◌<◌, ◌+◌, ◌*◌, ◌++◌, ◌↔◌, ℕ, Some, None, IfOk, IsTrue, MatchOption, OnOk};
ghost use Rattle.std.specs.Prelude.{drop, filter_map, length, option_copied, pos, replicate, true, false};
ghost use Rattle.wm_ast.specs.Store.{zero_of};
ghost use Rattle.cc_cut.specs.Law.{widths};
ghost use Rattle.cc_line.specs.declared.leaf.PieceId.TheVariants as ids;
ghost use Rattle.cc_simulate.specs.Frame.{local_ints};
ghost use Rattle.cc_spots.specs.declared.spot.CutSpot as spots;
ghost use Rattle.cc_call.specs.Frames.{first_opening, opening_piece};
ghost use Rattle.cc_pieces.specs.Fetching.{are_many, args_of_fetch, fetch_piece, first_fetch, most_fetches};
ghost use Rattle.cc_pieces.specs.Placing.{first_placer};
ghost use Rattle.cc_pieces.specs.Restoring.{first_restore};
ghost use Rattle.cc_spots.specs.Spot.{IsSpot};
ghost use Rattle.mc_inspect.specs.steps.Found.{Tells};
ghost use Rattle.mc_inspect.specs.steps.Openings.{HasFront, HasZeros, IsBegun, IsBegunNot, IsMade};
ghost use Rattle.mc_inspect.specs.steps.Openings.{IsPassedFor, IsPassedNot, last_places, type_at};

use crate::calls::{FIRST_RESTORE, is_followed};
use crate::frames::{callers_of, spot_seen, with_callers};
use crate::reading::Reading;
use cc_cut::widths;
use cc_line::{PieceId, sum};
use cc_spots::{CutSpot, cut_spot};
use cc_values::values_of;
use mc_nbt::{Memory, Value};
use std::alloc::Global;
use wm_ast::{FuncType, Items, Module, ValType};
use wm_valid::Typed;
use wm_view::{FrameView, Inspection};

// The first number of the pieces that fetch arguments, so many for each cut.
pub(crate) const FIRST_FETCH: u32 = 2_097_152;

pub(crate) const MOST_FETCHES: u32 = 8;

// So many places of arguments are passed by the piece of a call; more are fetched, so many by each piece.
const MOST_PASSED: u32 = 17;

const ARGS_OF_FETCH: u32 = 304;

// ---- the frame

/// The type of the function of this index.
pub(crate) fn type_of(m: &Module, func: u32) -> Option<&FuncType>
    ensures { option_copied result ≡ type_at m.now func }
{
    let f = m.funcs.get(func as usize)?;
    m.types.get(f.kind as usize)
}

// Adds a zero for each of these types.
fn push_zeros(kinds: &[ValType], values: &mut Vec<Value>) -> Result<(), Memory>
    ensures { OnOk result (values.new.items ≡ values.old.items ++ filter_map zero_of kinds.now) }
{
    for kind in kinds {
        match kind {
            ValType::I32 => values.push(Value::I32(0))?,
            ValType::I64 => values.push(Value::I64(0))?,
            ValType::F32 | ValType::F64 => {}
        }
    }
    Ok(())
}

// The frame of a function at its first place, where so many parameters have the first of these ints; none exactly where
// no arguments have them.
fn begun(
    alloc: Global,
    func: u32,
    spot: &CutSpot,
    params: usize,
    ints: &[i32],
) -> Result<Option<FrameView>, Memory>
    ensures { IfOk result (λ o. MatchOption o (IsBegunNot spot.now params ints.now)
        (λ f. IsBegun func spot.now params ints.now f)) }
{
    let count = params.min(spot.locals.len());
    let (own, others) = spot.locals.as_slice().split_at(count);
    let Some(args) = values_of(alloc, own, ints)? else {
        return Ok(None);
    };
    let mut locals = args.into_vec();
    push_zeros(others, &mut locals)?;
    Ok(Some(FrameView {
        func,
        locals: Items::from_vec(locals),
        operands: Items::new(alloc),
    }))
}

// ---- few arguments, which are the first places

fn few_passed(
    alloc: Global,
    m: &Typed,
    reading: &Reading,
    func: u32,
    spot: &CutSpot,
    ty: &FuncType,
) -> Result<Option<Inspection>, Memory>
    ensures { IfOk result (λ o. IsSpot m.now func 1 spot.now → type_at m.now func ≡ Some ty.now
        → are_many (widths ty.now.params) ≡ false → Tells m.now reading.now (opening_piece func) o) }
{
    let places = reading.places.as_slice();
    match begun(alloc, func, spot, ty.params.len(), places)? {
        Some(frame) => with_callers(alloc, m, reading, frame, spot),
        None => Ok(None),
    }
}

// ---- many, which stand in the caller's entry

// The places of the values of a frame.
fn used(frame: &FrameView) -> Result<u32, Memory>
    ensures { IfOk result (λ n. n ≡ length (local_ints frame.now.locals ++ local_ints frame.now.operands)) }
{
    let locals = places_of(frame.locals.as_slice())?;
    let operands = places_of(frame.operands.as_slice())?;
    sum(locals, operands)
}

// How many places these values have.
fn places_of(values: &[Value]) -> Result<u32, Memory>
    ensures { IfOk result (λ n. n ≡ length (local_ints values.now)) }
{
    let mut count = 0u32;
    for value in values {
        let own = match value {
            Value::I32(_) => 1,
            Value::I64(_) => 2,
        };
        count = sum(count, own)?;
    }
    Ok(count)
}

// What stands behind so many of these ints; nothing where they are fewer.
fn behind(ints: &[i32], count: u32) -> &[i32]
    ensures { result.now ≡ drop count ints.now }
{
    ints.get(count as usize..).unwrap_or(&[])
}

// The places of the last entry; none where there is no entry.
fn last_places(reading: &Reading) -> &[i32]
    ensures { result.now ≡ last_places reading.now }
{
    let Some(entries) = &reading.entries else {
        return &[];
    };
    match entries.as_slice() {
        [.., last] => last.places.as_slice(),
        [] => &[],
    }
}

// What stands in the last entry behind what its frame uses.
fn behind_used<'a>(reading: &'a Reading, frame: &FrameView) -> Result<&'a [i32], Memory>
    ensures { IfOk result (λ zs. zs.now
        ≡ drop (length (local_ints frame.now.locals ++ local_ints frame.now.operands)) (last_places reading.now)) }
{
    let used = used(frame)?;
    Ok(behind(last_places(reading), used))
}

// A call of many arguments, which stand behind what the frame of the last caller uses: the frames of all callers, and
// these ints.
#[derive(Drop)]
struct Passed<'a> {
    frames: Vec<FrameView>,
    given: &'a [i32],
}

// The call that the function of this type waits for, behind which the cut of this index is.
fn call_waiting<'a>(
    alloc: Global,
    m: &Typed,
    reading: &'a Reading,
    ty: &FuncType,
    caller: u32,
    index: u32,
) -> Result<Option<Passed<'a>>, Memory>
    requires { index < first_restore }
    ensures { IfOk result (λ o. MatchOption o (IsPassedNot m.now reading.now ty.now caller index)
        (λ x. IsPassedFor m.now reading.now ty.now caller index x.frames.items x.given.now)) }
{
    let piece = PieceId::Body {
        func: caller,
        index: FIRST_RESTORE + index,
    };
    let Some(spot) = cut_spot(alloc, m, caller, index)? else {
        return Ok(None);
    };
    let Some(call) = &spot.call else {
        return Ok(None);
    };
    let params = widths(ty.params.as_slice())?;
    if widths(call.params.as_slice())? != params {
        return Ok(None);
    }
    if !is_followed(reading, piece) {
        return Ok(None);
    }
    let Some(frames) = callers_of(alloc, m, reading, ty.results.as_slice())? else {
        return Ok(None);
    };
    let [.., last] = frames.as_slice() else {
        return Ok(None);
    };
    let given = behind_used(reading, last)?;
    Ok(Some(Passed { frames, given }))
}

// The function and the index of the cut behind the call whose first arguments the piece fetches that follows.
fn first_fetched(reading: &Reading) -> Option<(u32, u32)>
    ensures { MatchOption result
        ((f j : ℕ) → j < first_restore
        → reading.now.follows ≡ Some (ids.Body f (first_fetch + (most_fetches * j + 0))) → ⊥)
        (λ x. (x.1 < first_restore)
        × (reading.now.follows ≡ Some (ids.Body x.0 (first_fetch + (most_fetches * x.1 + 0))))) }
{
    let Some(PieceId::Body { func, index }) = reading.follows else {
        return None;
    };
    let number = index.checked_sub(FIRST_FETCH)?;
    if number % MOST_FETCHES == 0 && number / MOST_FETCHES < FIRST_RESTORE {
        Some((func, number / MOST_FETCHES))
    } else {
        None
    }
}

// The call is of many arguments, and its frame is still to be made.
fn many_passed(
    alloc: Global,
    m: &Typed,
    reading: &Reading,
    func: u32,
    spot: &CutSpot,
    ty: &FuncType,
) -> Result<Option<Inspection>, Memory>
    ensures { IfOk result (λ o. IsSpot m.now func 1 spot.now → type_at m.now func ≡ Some ty.now
        → are_many (widths ty.now.params) ≡ true → Tells m.now reading.now (opening_piece func) o) }
{
    let Some((caller, index)) = first_fetched(reading) else {
        return Ok(None);
    };
    let Some(call) = call_waiting(alloc, m, reading, ty, caller, index)? else {
        return Ok(None);
    };
    match begun(alloc, func, spot, ty.params.len(), call.given)? {
        Some(frame) => Ok(Some(spot_seen(alloc, call.frames, frame, spot)?)),
        None => Ok(None),
    }
}

/// The piece is next that makes the frame of the function of this index.
pub(crate) fn opening(
    alloc: Global,
    m: &Typed,
    reading: &Reading,
    func: u32,
) -> Result<Option<Inspection>, Memory>
    requires { first_opening + func < first_placer }
    ensures { IfOk result (Tells m.now reading.now (opening_piece func)) }
{
    let Some(ty) = type_of(m.module(), func) else {
        return Ok(None);
    };
    let Some(spot) = cut_spot(alloc, m, func, 1)? else {
        return Ok(None);
    };
    if widths(ty.params.as_slice())? > MOST_PASSED {
        many_passed(alloc, m, reading, func, &spot, ty)
    } else {
        few_passed(alloc, m, reading, func, &spot, ty)
    }
}

// ---- the frame is made

// Whether these are the first places.
fn is_front(places: &[i32], front: &[i32]) -> bool
    ensures { IsTrue result ↔ HasFront places.now front.now }
{
    match places.get(..front.len()) {
        Some(first) => first == front,
        None => false,
    }
}

// Whether all of these are zeros.
fn all_zeros(ints: &[i32]) -> bool
    ensures { IsTrue result ↔ (ints.now ≡ replicate (length ints.now) (pos 0)) }
{
    for int in ints {
        if *int != 0 {
            return false;
        }
    }
    true
}

// Whether so many places are zeros, from this one on.
fn are_zeros(places: &[i32], from: usize, count: usize) -> bool
    ensures { IsTrue result ↔ HasZeros from count places.now }
{
    let Some(others) = places.get(from..) else {
        return false;
    };
    match others.get(..count) {
        Some(ints) => all_zeros(ints),
        None => false,
    }
}

// Whether the frame has the first of the arguments, zeros in the places of the other locals, and its size.
fn is_made(
    reading: &Reading,
    spot: &CutSpot,
    given: &[i32],
    fetched: u32,
    params: u32,
) -> Result<bool, Memory>
    ensures { IfOk result (λ b. IsTrue b ↔ IsMade reading.now.places.items spot.now given.now fetched params) }
{
    let places = reading.places.as_slice();
    let locals = widths(spot.locals.as_slice())?;
    let Some(front) = given.get(..fetched as usize) else {
        return Ok(false);
    };
    let zeros = locals.saturating_sub(params) as usize;
    Ok(
        places.len() == spot.size as usize
            && is_front(places, front)
            && are_zeros(places, params as usize, zeros),
    )
}

/// The function that begins: its first cut follows.
pub(crate) fn beginning(reading: &Reading) -> Option<u32>
    ensures { MatchOption result ((f : ℕ) → reading.now.follows ≡ Some (ids.Body f 1) → ⊥)
        (λ f. reading.now.follows ≡ Some (ids.Body f 1)) }
{
    match reading.follows {
        Some(PieceId::Body { func, index: 1 }) => Some(func),
        _ => None,
    }
}

// So many pieces have fetched arguments of the function of this type.
fn fetching_for(
    alloc: Global,
    m: &Typed,
    reading: &Reading,
    func: u32,
    ty: &FuncType,
    spot: &CutSpot,
    call: Passed<'_>,
    fetched: u32,
) -> Result<Option<Inspection>, Memory>
    ensures { IfOk result (λ o. (caller index count : ℕ) → IsSpot m.now func 1 spot.now
        → type_at m.now func ≡ Some ty.now → reading.now.follows ≡ Some (ids.Body func 1)
        → IsPassedFor m.now reading.now ty.now caller index call.entry.frames.items call.entry.given.now
        → fetched ≡ args_of_fetch * count → count < most_fetches → (x : spots.CutSpot)
        → IsSpot m.now caller index x → x.division ≡ None
        → Tells m.now reading.now (fetch_piece caller index count) o) }
{
    let params = widths(ty.params.as_slice())?;
    if params <= MOST_PASSED {
        return Ok(None);
    }
    if params <= fetched {
        return Ok(None);
    }
    if !is_made(reading, spot, call.given, fetched, params)? {
        return Ok(None);
    }
    match begun(alloc, func, spot, ty.params.len(), call.given)? {
        Some(frame) => Ok(Some(spot_seen(alloc, call.frames, frame, spot)?)),
        None => Ok(None),
    }
}

/// So many pieces have fetched arguments of the call behind which the cut of this index is.
pub(crate) fn fetching(
    alloc: Global,
    m: &Typed,
    reading: &Reading,
    caller: u32,
    index: u32,
    count: u32,
) -> Result<Option<Inspection>, Memory>
    requires low { index < first_restore }
    requires few { count < most_fetches }
    ensures { IfOk result (λ o. (x : spots.CutSpot) → IsSpot m.now caller index x → x.division ≡ None
        → Tells m.now reading.now (fetch_piece caller index count) o) }
{
    let Some(func) = beginning(reading) else {
        return Ok(None);
    };
    let Some(ty) = type_of(m.module(), func) else {
        return Ok(None);
    };
    let Some(spot) = cut_spot(alloc, m, func, 1)? else {
        return Ok(None);
    };
    match call_waiting(alloc, m, reading, ty, caller, index)? {
        Some(call) => fetching_for(
            alloc,
            m,
            reading,
            func,
            ty,
            &spot,
            call,
            ARGS_OF_FETCH * count,
        ),
        None => Ok(None),
    }
}
