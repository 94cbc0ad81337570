// The pieces that stand before a cut.
ghost use Rattle.std.specs.Prelude.{◌≡◌, ◌++◌, Some, OnOk};
ghost use Rattle.wm_place.specs.Stop.{visit_told};
ghost use Rattle.cc_pieces.specs.Parts.{parts_view};
ghost use Rattle.cc_body.specs.Behind.{division_before};
ghost use Rattle.cc_body.specs.steps.PartBuilder.{answered, called, restored};

use crate::body::Body;
use crate::calling::call_before;
use crate::dividing::{division_before, push_dividing};
use crate::lean_body::LeanBody;
use crate::width::top;
use cc_cut::widths;
use cc_pieces::{Part, push_fetching, restore_piece, restoring_items};
use mc_nbt::Memory;
use wm_ast::FuncType;
use wm_place::Stop;

/// Adds the pieces that stand before the cut of this index, where the place follows a call or a division of i64.
pub(crate) fn push_restored(
    lean: &LeanBody<'_>,
    index: u32,
    stop: Stop<'_>,
    parts: &mut Vec<Part>,
) -> Result<(), Memory>
    ensures { OnOk result (parts_view parts.new.items
        ≡ parts_view parts.old.items ++ restored lean.now index (visit_told stop.entry)) }
{
    match call_before(lean.body.module, stop) {
        Some(ty) => push_called(lean, index, stop, ty, parts),
        None => push_answered(lean, index, stop, parts),
    }
}

// Adds the piece that restores the frame behind a call of a function of this type, and those that fetch its arguments.
fn push_called(
    lean: &LeanBody<'_>,
    index: u32,
    stop: Stop<'_>,
    ty: &FuncType,
    parts: &mut Vec<Part>,
) -> Result<(), Memory>
    ensures { OnOk result (parts_view parts.new.items
        ≡ parts_view parts.old.items ++ called lean.now index (visit_told stop.entry) (Some ty.now)) }
{
    let results = widths(ty.results.as_slice())?;
    let params = widths(ty.params.as_slice())?;
    let in_use = top(&lean.body, stop.kinds)?.saturating_sub(results);
    let Body {
        alloc,
        func,
        size,
        ..
    } = lean.body;
    let items = restoring_items(alloc, func, index, in_use, results, size)?;
    parts.push(lean.part(restore_piece(func, index)?, items)?)?;
    push_fetching(alloc, func, index, in_use, params, parts)
}

// Adds the pieces of a division of i64, where the place follows one.
fn push_answered(
    lean: &LeanBody<'_>,
    index: u32,
    stop: Stop<'_>,
    parts: &mut Vec<Part>,
) -> Result<(), Memory>
    ensures { OnOk result (parts_view parts.new.items ≡ parts_view parts.old.items
        ++ answered lean.now index (visit_told stop.entry) (division_before (visit_told stop.entry))) }
{
    if let Some(op) = division_before(stop) {
        push_dividing(lean, op, index, stop, parts)?;
    }
    Ok(())
}
