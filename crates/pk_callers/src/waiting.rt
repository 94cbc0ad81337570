// All callers, from the entries below.
ghost use Rattle.std.specs.Prelude.{◌≡◌, ◌∷◌, ◌↔◌, IfOk, IsTrue, MatchOption, map, reverse};
ghost use Rattle.cc_call.specs.Frames.{base};
ghost use Rattle.cc_cut.specs.Law.{widths};
ghost use Rattle.pk_entries.specs.View.{entry_view};
ghost use Rattle.cc_line.specs.Running.{Kept};
ghost use Rattle.pk_callers.specs.Shown.{HaveNoCallers, ShowCallers};
ghost use Rattle.pk_callers.specs.steps.Lead.{IsLed};

use crate::caller::caller_of;
use cc_cut::widths;
use cc_line::PieceId;
use mc_nbt::Memory;
use pk_entries::Entry;
use std::alloc::Global;
use wm_ast::{ValType, ValTypes};
use wm_valid::Typed;
use wm_view::FrameView;

/// The frames of the callers that wait with these entries, the outermost first, for a function that gives this; none
/// exactly where no callers do.
///
/// # Errors
///
/// `Memory` where there is no room for them.
pub fn callers(
    alloc: Global,
    m: &Typed,
    entries: &[Entry],
    gives: &[ValType],
) -> Result<Option<Vec<FrameView>>, Memory>
    ensures { IfOk result (λ o. MatchOption o (HaveNoCallers m.now gives.now (map entry_view entries.now))
        (λ fs. ShowCallers m.now gives.now (map entry_view entries.now) fs.items)) }
{
    match entries {
        [] => Ok(None),
        [first, others @ ..] => callers_over(alloc, m, first, others, gives),
    }
}

// The same of the outermost entry and the others.
fn callers_over(
    alloc: Global,
    m: &Typed,
    first: &Entry,
    others: &[Entry],
    gives: &[ValType],
) -> Result<Option<Vec<FrameView>>, Memory>
    ensures { IfOk result (λ o. MatchOption o (HaveNoCallers m.now gives.now (entry_view first.now ∷ map entry_view others.now))
        (λ fs. ShowCallers m.now gives.now (entry_view first.now ∷ map entry_view others.now) fs.items)) }
{
    let Some(inner) = inner_callers(alloc, m, others, gives)? else {
        return Ok(None);
    };
    if !is_base(first, inner.gives.as_slice())? {
        return Ok(None);
    }
    Ok(Some(turned(inner.frames)))
}

fn turned(mut frames: Vec<FrameView>) -> Vec<FrameView>
    ensures { result.items ≡ reverse frames.items }
{
    frames.reverse();
    frames
}

// Callers that wait with entries: their frames, the innermost first, and what the function of the last of them gives.
#[derive(Drop)]
struct Inner {
    frames: Vec<FrameView>,
    gives: ValTypes,
}

// All callers that wait with these entries; none exactly where none do, whatever entry is under them.
fn inner_callers(
    alloc: Global,
    m: &Typed,
    entries: &[Entry],
    gives: &[ValType],
) -> Result<Option<Inner>, Memory>
    ensures { IfOk result (λ o. MatchOption o ((first : Kept) → HaveNoCallers m.now gives.now (first ∷ map entry_view entries.now))
        (λ x. IsLed m.now gives.now (map entry_view entries.now) x.frames.items x.gives)) }
{
    let mut left = entries;
    let mut inner = Inner {
        frames: Vec::new(alloc),
        gives: ValTypes::from_vec(Vec::from_slice(alloc, gives)?),
    };
    while let [outer @ .., last] = left {
        let Some(found) = caller_of(alloc, m, last, inner.gives.as_slice())? else {
            return Ok(None);
        };
        inner.frames.push(found.frame)?;
        inner.gives = found.gives;
        left = outer;
    }
    Ok(Some(inner))
}

// Whether an entry is the base, which ends the job with values of these types.
fn is_base(entry: &Entry, gives: &[ValType]) -> Result<bool, Memory>
    ensures { IfOk result (λ b. IsTrue b ↔ (entry_view entry.now ≡ base (widths gives.now))) }
{
    let wanted = widths(gives)?;
    match entry.follows {
        PieceId::End { results } => Ok(results == wanted && entry.places.is_empty()),
        PieceId::Body { .. } | PieceId::Init { .. } | PieceId::Shared { .. } => Ok(false),
    }
}
