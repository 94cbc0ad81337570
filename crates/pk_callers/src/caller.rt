// One caller, from its entry.
ghost use Rattle.std.specs.Prelude.{◌≡◌, ◌++◌, ◌<◌, ◌↔◌, ℕ, List, Some, IfOk, IsTrue, MatchOption, drop, length, take};
ghost use Rattle.mc_nbt.specs.declared.value.Value as values;
ghost use Rattle.wm_ast.specs.declared.module.FuncType as signatures;
ghost use Rattle.wm_ast.specs.declared.module.ValType as kinds;
ghost use Rattle.wm_flat.specs.FlatTyping.{types_of};
ghost use Rattle.cc_line.specs.Place.{score_places};
ghost use Rattle.cc_line.specs.View.{piece_view};
ghost use Rattle.cc_pieces.specs.Restoring.{restore_piece};
ghost use Rattle.cc_simulate.specs.Callers.{IsHeld};
ghost use Rattle.cc_simulate.specs.Frame.{local_ints};
ghost use Rattle.pk_entries.specs.View.{entry_view};
ghost use Rattle.pk_callers.specs.Shown.{CallerShown, HasNoCaller};

use crate::types::{below, results_of};
use cc_cut::widths;
use cc_line::{PieceId, SCORE_PLACES};
use cc_spots::{CutSpot, cut_spot};
use cc_values::values_of;
use mc_nbt::{Memory, Value};
use pk_entries::Entry;
use std::alloc::Global;
use wm_ast::{Items, ValType, ValTypes, are_same};
use wm_valid::Typed;
use wm_view::FrameView;

/// A caller: its frame, and what its own function gives.
#[derive(Drop)]
pub(crate) struct Caller {
    pub(crate) frame: FrameView,
    pub(crate) gives: ValTypes,
}

// The cut behind a call: the index of its function, and its own.
#[derive(Clone, Copy)]
struct CallSite {
    func: u32,
    index: u32,
}

// The first number of the pieces that restore the frames of callers.
const FIRST_RESTORE: u32 = 1_048_576;

/// The caller that waits with this entry for a function that gives this; none exactly where no caller does.
pub(crate) fn caller_of(
    alloc: Global,
    m: &Typed,
    entry: &Entry,
    gives: &[ValType],
) -> Result<Option<Caller>, Memory>
    ensures { IfOk result (λ o. MatchOption o (HasNoCaller m.now gives.now (entry_view entry.now))
        (λ x. CallerShown m.now gives.now (entry_view entry.now) x.frame x.gives)) }
{
    let program = m.module();
    let Some(site) = restored(entry.follows) else {
        return Ok(None);
    };
    let Some(spot) = cut_spot(alloc, m, site.func, site.index)? else {
        return Ok(None);
    };
    let Some(stay) = kinds_under(&spot, gives) else {
        return Ok(None);
    };
    let Some(frame) = frame_at(alloc, site.func, &spot, stay, entry.places.as_slice())? else {
        return Ok(None);
    };
    let gives = results_of(alloc, program, site.func)?;
    Ok(Some(Caller { frame, gives }))
}

// The cut behind whose call the piece restores a frame; none exactly where it is no such piece.
fn restored(piece: PieceId) -> Option<CallSite>
    ensures { MatchOption result ((f j : ℕ) → piece_view piece ≡ restore_piece f j → ⊥)
        (λ x. piece_view piece ≡ restore_piece x.func x.index) }
{
    match piece {
        PieceId::Body { func, index } => {
            let index = index.checked_sub(FIRST_RESTORE)?;
            Some(CallSite { func, index })
        }
        PieceId::Init { .. } | PieceId::Shared { .. } | PieceId::End { .. } => None,
    }
}

// The kinds of the operands that stay under results of these types; none exactly where the place isn't behind a call
// that gives them.
fn kinds_under<'a>(spot: &'a CutSpot, gives: &[ValType]) -> Option<&'a [ValType]>
    ensures { MatchOption result
        ((t : signatures.FuncType) (ts : List kinds.ValType) → spot.now.call ≡ Some t → t.results ≡ gives.now → spot.now.kinds ≡ ts ++ gives.now → ⊥)
        (λ ts. (t : signatures.FuncType) × (spot.now.call ≡ Some t) × (t.results ≡ gives.now) × (spot.now.kinds ≡ ts.now ++ gives.now)) }
{
    match &spot.call {
        Some(call) => {
            if are_same(call.results.as_slice(), gives) {
                below(spot.kinds.as_slice(), gives)
            } else {
                None
            }
        }
        None => None,
    }
}

// The frame that these places hold, with operands of these kinds; none exactly where they hold none.
fn frame_at(
    alloc: Global,
    func: u32,
    spot: &CutSpot,
    stay: &[ValType],
    places: &[i32],
) -> Result<Option<FrameView>, Memory>
    ensures { IfOk result (λ o. MatchOption o
        ((ls os : List values.Value) → types_of ls ≡ spot.now.locals → types_of os ≡ stay.now → IsHeld spot.now.size (local_ints ls ++ local_ints os) places.now → ⊥)
        (λ f. (f.func ≡ func) × (types_of f.locals ≡ spot.now.locals) × (types_of f.operands ≡ stay.now)
        × IsHeld spot.now.size (local_ints f.locals ++ local_ints f.operands) places.now)) }
{
    let mut kinds = Vec::from_slice(alloc, spot.locals.as_slice())?;
    kinds.extend_from_slice(stay)?;
    let Some(values) = values_of(alloc, kinds.as_slice(), places)? else {
        return Ok(None);
    };
    let used = widths(kinds.as_slice())?;
    if !is_whole(used, spot.size, places) {
        return Ok(None);
    }
    Ok(Some(parted(alloc, func, spot.locals.len(), values.as_slice())?))
}

// Whether an entry has as many places as a frame of this size, where more are used than are scores.
fn is_whole(used: u32, size: u32, places: &[i32]) -> bool
    ensures { IsTrue result ↔ (score_places < used → length places.now ≡ size) }
{
    used <= SCORE_PLACES || places.len() == size as usize
}

// The first so many values as locals, and the others as operands.
fn parted(alloc: Global, func: u32, locals: usize, values: &[Value]) -> Result<FrameView, Memory>
    ensures { IfOk result (λ f. (f.func ≡ func) × (f.locals ≡ take locals values.now) × (f.operands ≡ drop locals values.now)) }
{
    let count = locals.min(values.len());
    let (first, others) = values.split_at(count);
    Ok(FrameView {
        func,
        locals: Items::from_vec(Vec::from_slice(alloc, first)?),
        operands: Items::from_vec(Vec::from_slice(alloc, others)?),
    })
}
