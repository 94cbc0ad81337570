// The innermost frame, the frames of the callers, and what is seen of them.
ghost use Rattle.std.specs.Prelude.{◌≡◌, ◌≤◌, ◌++◌, ◌∷◌, [], ℕ, IfOk, MatchOption, length, take, drop};
ghost use Rattle.wm_flat.specs.FlatTyping.{types_of};
ghost use Rattle.wm_view.specs.View.{frame_view};
ghost use Rattle.cc_spots.specs.Spot.{IsSpot};
ghost use Rattle.mc_inspect.specs.steps.Found.{HasNoneBelow, Holds, HoldsNoFrame, HoldsNone, IsFrameAt, IsFrameUnder, IsUnwaited};
ghost use Rattle.mc_inspect.specs.steps.Found.{ShowBelow, ShowsFrame, one_or_none, spot_seen};

use crate::reading::Reading;
use cc_spots::CutSpot;
use cc_values::values_of;
use mc_nbt::{Memory, Value};
use pk_callers::{callers, results_of};
use std::alloc::Global;
use wm_ast::{Items, ValType};
use wm_valid::Typed;
use wm_view::{FrameView, Inspection};

// ---- the innermost frame

// The first so many values as locals, and the others as operands.
fn split(alloc: Global, func: u32, count: usize, values: &[Value]) -> Result<FrameView, Memory>
    requires { count ≤ length values.now }
    ensures { IfOk result (λ f. f ≡ frame_view func (take count values.now) (drop count values.now)) }
{
    let (first, others) = values.split_at(count);
    Ok(FrameView {
        func,
        locals: Items::from_vec(Vec::from_slice(alloc, first)?),
        operands: Items::from_vec(Vec::from_slice(alloc, others)?),
    })
}

// This frame, where there are so many places.
fn where_sized(places: &[i32], size: u32, frame: FrameView) -> Option<FrameView>
    ensures { MatchOption result (length places.now ≡ size → ⊥) (λ f. (f ≡ frame) × (length places.now ≡ size)) }
{
    if places.len() == size as usize {
        Some(frame)
    } else {
        None
    }
}

// The frame that these places hold, at a cut whose operands in the frame are of these kinds; none exactly where they
// hold none.
fn frame_at(
    alloc: Global,
    func: u32,
    spot: &CutSpot,
    kinds: &[ValType],
    places: &[i32],
) -> Result<Option<FrameView>, Memory>
    ensures { IfOk result (λ o. MatchOption o (HoldsNoFrame spot.now kinds.now places.now)
        (λ f. IsFrameAt func spot.now kinds.now places.now f)) }
{
    let mut types = Vec::from_slice(alloc, spot.locals.as_slice())?;
    types.extend_from_slice(kinds)?;
    let Some(values) = values_of(alloc, types.as_slice(), places)? else {
        return Ok(None);
    };
    let frame = split(alloc, func, spot.locals.len(), values.as_slice())?;
    Ok(where_sized(places, spot.size, frame))
}

// A frame with one operand more on top.
fn with_operand(frame: FrameView, value: Value) -> Result<FrameView, Memory>
    ensures { IfOk result (λ f. f ≡ frame_view frame.func frame.locals (frame.operands ++ value ∷ [])) }
{
    let mut operands = frame.operands.into_vec();
    operands.push(value)?;
    Ok(FrameView {
        func: frame.func,
        locals: frame.locals,
        operands: Items::from_vec(operands),
    })
}

/// A frame with this on top, if anything is.
pub(crate) fn topped(frame: FrameView, top: Option<Value>) -> Result<FrameView, Memory>
    ensures { IfOk result (λ f. f ≡ frame_view frame.func frame.locals (frame.operands ++ one_or_none top)) }
{
    match top {
        Some(value) => with_operand(frame, value),
        None => Ok(frame),
    }
}

// ---- all of them

/// The frames of the callers of a function that gives this, the outermost first; none exactly where there are no such
/// callers.
pub(crate) fn callers_of(
    alloc: Global,
    m: &Typed,
    reading: &Reading,
    gives: &[ValType],
) -> Result<Option<Vec<FrameView>>, Memory>
    ensures { IfOk result (λ o. MatchOption o (HasNoneBelow m.now reading.now gives.now)
        (λ fs. ShowBelow m.now reading.now gives.now fs.items)) }
{
    match &reading.entries {
        Some(entries) => callers(alloc, m, entries.as_slice(), gives),
        None => Ok(None),
    }
}

/// What is seen where these frames stand round one that is at a spot.
pub(crate) fn spot_seen(
    alloc: Global,
    mut frames: Vec<FrameView>,
    frame: FrameView,
    spot: &CutSpot,
) -> Result<Inspection, Memory>
    ensures { IfOk result (λ v. v ≡ spot_seen frames.items frame spot.now) }
{
    let mut operands = frame.operands.into_vec();
    operands.extend_from_slice(spot.constants.as_slice())?;
    frames.push(FrameView {
        func: frame.func,
        locals: frame.locals,
        operands: Items::from_vec(operands),
    })?;
    Ok(Inspection {
        frames: Items::from_vec(frames),
        next: spot.next,
        left: Items::from_vec(Vec::from_slice(alloc, spot.left.as_slice())?),
    })
}

/// What is seen of a frame that is at a spot, and of its callers; none exactly where nobody waits for its function.
pub(crate) fn with_callers(
    alloc: Global,
    m: &Typed,
    reading: &Reading,
    frame: FrameView,
    spot: &CutSpot,
) -> Result<Option<Inspection>, Memory>
    ensures { IfOk result (λ o. MatchOption o (IsUnwaited m.now reading.now frame.func)
        (λ v. ShowsFrame m.now reading.now frame spot.now v)) }
{
    let gives = results_of(alloc, m.module(), frame.func)?;
    let Some(frames) = callers_of(alloc, m, reading, gives.as_slice())? else {
        return Ok(None);
    };
    let shown = spot_seen(alloc, frames, frame, spot)?;
    Ok(Some(shown))
}

// The frame that the places hold, with one operand more where there is one.
fn frame_under(
    alloc: Global,
    func: u32,
    spot: &CutSpot,
    kinds: &[ValType],
    places: &[i32],
    top: Option<Value>,
) -> Result<Option<FrameView>, Memory>
    ensures { IfOk result (λ o. MatchOption o (HoldsNoFrame spot.now kinds.now places.now)
        (λ f. IsFrameUnder func spot.now kinds.now places.now (one_or_none top) f)) }
{
    let Some(frame) = frame_at(alloc, func, spot, kinds, places)? else {
        return Ok(None);
    };
    let whole = topped(frame, top)?;
    Ok(Some(whole))
}

/// What is seen of an activation at the cut of a spot, and of its callers, where the frame has the operands of these
/// kinds, and the one on top of them, if one is, isn't in it; none exactly where no activation stands so.
pub(crate) fn held(
    alloc: Global,
    m: &Typed,
    reading: &Reading,
    func: u32,
    spot: &CutSpot,
    kinds: &[ValType],
    top: Option<Value>,
) -> Result<Option<Inspection>, Memory>
    requires { spot.now.kinds ≡ kinds.now ++ types_of (one_or_none top) }
    ensures { IfOk result (λ o. (index : ℕ) → IsSpot m.now func index spot.now
        → MatchOption o (HoldsNone m.now reading.now func index (one_or_none top))
        (λ v. Holds m.now reading.now func index (one_or_none top) v)) }
{
    let places = reading.places.as_slice();
    let Some(frame) = frame_under(alloc, func, spot, kinds, places, top)? else {
        return Ok(None);
    };
    with_callers(alloc, m, reading, frame, spot)
}
