//! Whether a call may start.

ghost use Rattle.std.specs.Prelude.{slice_get};
ghost use Rattle.mc_cmd.specs.Packing.{index_view};
ghost use Rattle.pk_multi.specs.steps.Calling.{IsFitting, IsFree};

use crate::ShareRefusal;
use mc_cmd::Index;
use mc_nbt::Value;
use mc_tick::are_of_kinds;

/// Whether a call of the export at a place may have these arguments.
pub(crate) fn fits(index: &Index, export: usize, args: &[Value]) -> Result<(), ShareRefusal>
    ensures { IsFitting (slice_get (index_view index.now).exports export) args.now result }
{
    let Some(export) = index.exports.as_slice().get(export) else {
        return Err(ShareRefusal::NoExport);
    };
    if are_of_kinds(args, export.params.as_slice()) {
        Ok(())
    } else {
        Err(ShareRefusal::WrongArgs)
    }
}

/// Whether a call may start in this state.
pub(crate) fn rests(state: Option<i32>) -> Result<(), ShareRefusal>
    ensures { IsFree state result }
{
    match state {
        Some(1) => Err(ShareRefusal::Busy),
        Some(4) => Err(ShareRefusal::Dead),
        _ => Ok(()),
    }
}
