// The acts of branches, and of returns.
ghost use Rattle.std.specs.Prelude.{◌≡◌, ◌++◌, length, reverse, IfOk, OnOk};
ghost use Rattle.wm_ast.specs.Types.{results_of};
ghost use Rattle.wm_ast.specs.View.{op_of};
ghost use Rattle.wm_place.specs.Spot.{arity_of};
ghost use Rattle.wm_place.specs.Stop.{level_told, visit_told};
ghost use Rattle.cc_line.specs.View.{conds_view};
ghost use Rattle.cc_body.specs.Emit.{is_index};
ghost use Rattle.cc_call.specs.View.{acts_view};
ghost use Rattle.cc_pieces.specs.View.{list_view};
ghost use Rattle.cc_body.specs.steps.Emission.{branch_list, end_list, landing_list, table_list};
ghost use Rattle.cc_body.specs.steps.PieceBuilder.{ground};

use crate::act::{push_carry, push_goto};
use crate::body::Body;
use crate::width::{last_widths, place_above, top};
use cc_call::hand_results;
use cc_cut::{block_path, labelled};
use cc_line::{Act, Check, Cond, Conds, Item, Scratch, int_of, spot_of};
use cc_pieces::{push_acts, push_exit};
use mc_cmd::Range;
use mc_nbt::Memory;
use wm_ast::{Instr, ValType};
use wm_place::{Level, Stop};

/// A return, with the body's results among operands of these types.
pub(crate) fn end_acts(body: &Body<'_>, kinds: &[ValType]) -> Result<Vec<Act>, Memory>
    ensures { IfOk result (λ acts. acts_view acts.items ≡ end_list (ground body.now) (reverse kinds.now)) }
{
    let count = last_widths(kinds, body.results as usize)?;
    let top = top(body, kinds)?;
    let mut acts = Vec::new(body.alloc);
    hand_results(count, top, &mut acts)?;
    Ok(acts)
}

/// How many operands a branch to the label of a block takes along.
pub(crate) fn arity(block: &Instr) -> usize
    ensures { result ≡ arity_of (op_of block.now) }
{
    match block {
        Instr::Block { ty, .. } => gives(*ty),
        Instr::If { ty, .. } => gives(*ty),
        _ => 0,
    }
}

fn gives(ty: Option<ValType>) -> usize
    ensures { result ≡ length (results_of ty) }
{
    match ty {
        Some(_) => 1,
        None => 0,
    }
}

// A branch, over operands of these types, to the label of a block.
fn landing_acts(
    body: &Body<'_>,
    stop: Stop<'_>,
    kinds: &[ValType],
    level: &Level<'_>,
) -> Result<Vec<Act>, Memory>
    ensures { IfOk result (λ acts. acts_view acts.items
        ≡ landing_list (ground body.now) (visit_told stop.entry) (reverse kinds.now) (level_told level.now)) }
{
    let count = last_widths(kinds, arity(level.block))?;
    let top = top(body, kinds)?;
    let to = place_above(body, stop.kinds, level.under)?;
    let path = block_path(stop.path, level);
    let found = body.indices.landing(body.alloc, level.block, path)?;
    let mut acts = Vec::new(body.alloc);
    push_carry(count, top.saturating_sub(count), to, &mut acts)?;
    push_goto(body.func, found, &mut acts)?;
    Ok(acts)
}

/// A branch, over operands of these types, to a label.
pub(crate) fn branch_acts(
    body: &Body<'_>,
    stop: Stop<'_>,
    kinds: &[ValType],
    label: u32,
) -> Result<Vec<Act>, Memory>
    ensures { IfOk result (λ acts. acts_view acts.items
        ≡ branch_list (ground body.now) (visit_told stop.entry) (reverse kinds.now) label) }
{
    match labelled(stop.levels, label) {
        Some(level) => landing_acts(body, stop, kinds, level),
        None => end_acts(body, kinds),
    }
}

// The index in a place is this one.
fn is_index(place: u32, index: usize) -> Result<Conds, Memory>
    ensures { IfOk result (λ cs. conds_view cs ≡ is_index place index) }
{
    let Ok(index) = u32::try_from(index) else {
        return Err(Memory);
    };
    let value = int_of(index)?;
    Ok(Conds::One(Cond::Holds(Check::InRange(spot_of(place, Scratch::A), Range::One(value)))))
}

/// By the index in a place: to each of these labels, or else to the last one.
pub(crate) fn push_table(
    body: &Body<'_>,
    stop: Stop<'_>,
    kinds: &[ValType],
    place: u32,
    labels: &[u32],
    last: u32,
    items: &mut Vec<Item>,
) -> Result<(), Memory>
    ensures { OnOk result (list_view items.new.items ≡ list_view items.old.items
        ++ table_list (ground body.now) (visit_told stop.entry) (reverse kinds.now) place 0 labels.now last) }
{
    for (index, label) in labels.iter().enumerate() {
        let acts = branch_acts(body, stop, kinds, *label)?;
        push_exit(is_index(place, index)?, acts.as_slice(), items)?;
    }
    let acts = branch_acts(body, stop, kinds, last)?;
    push_acts(acts.as_slice(), items)?;
    Ok(())
}
