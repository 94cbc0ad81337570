// At a cut.
ghost use Rattle.std.specs.Prelude.{◌<◌, IfOk, MatchOption, []};
ghost use Rattle.cc_line.specs.Key.{body_piece};
ghost use Rattle.cc_pieces.specs.Restoring.{first_restore};
ghost use Rattle.mc_inspect.specs.steps.Found.{Holds, HoldsNone, Tells};

use crate::frames::held;
use crate::reading::Reading;
use cc_spots::cut_spot;
use mc_nbt::Memory;
use std::alloc::Global;
use wm_valid::Typed;
use wm_view::Inspection;

/// What is seen of an activation at the cut of this index, all of whose operands are in the frame, and of its callers;
/// none exactly where no activation stands so.
pub(crate) fn whole(
    alloc: Global,
    m: &Typed,
    reading: &Reading,
    func: u32,
    index: u32,
) -> Result<Option<Inspection>, Memory>
    ensures { IfOk result (λ o. MatchOption o (HoldsNone m.now reading.now func index [])
        (λ v. Holds m.now reading.now func index [] v)) }
{
    let Some(spot) = cut_spot(alloc, m, func, index)? else {
        return Ok(None);
    };
    held(alloc, m, reading, func, &spot, spot.kinds.as_slice(), None)
}

/// The piece of a cut is next.
pub(crate) fn at_cut(
    alloc: Global,
    m: &Typed,
    reading: &Reading,
    func: u32,
    index: u32,
) -> Result<Option<Inspection>, Memory>
    requires { index < first_restore }
    ensures { IfOk result (Tells m.now reading.now (body_piece func index)) }
{
    whole(alloc, m, reading, func, index)
}
