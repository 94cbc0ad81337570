// The walk over items from the end to the beginning.
ghost use Rattle.std.specs.Prelude.{◌≡◌, IfOk, OnOk};
ghost use Rattle.cc_line.specs.View.{item_view, items_view, step_view};
ghost use Rattle.cc_names.specs.Names as spec;
ghost use Rattle.cc_names.specs.steps.Walk.{and_kept, exit_view, need_before, way_before};

use crate::names::{act_names_next, is_needless, needed_before};
use crate::same::same_conds;
use cc_line::{Conds, Item, Step};
use mc_nbt::Memory;
use std::alloc::Global;

/// The items, where those that name the next piece do so only where the name is needed: behind it the next piece is
/// named in any case before any way out, or there is none but one at a trap. Where it is needed at a way out alone, and
/// was named under that one's conditions, it is named without them.
///
/// # Errors
///
/// `Memory` where there is no room for the items that stay.
pub fn with_needed_names(alloc: Global, mut items: Vec<Item>) -> Result<Vec<Item>, Memory>
    ensures { IfOk result (λ v. items_view v.items ≡ spec.with_needed_names (items_view items.items)) }
{
    let mut needed = true;
    let mut exit = None;
    items.reverse();
    let mut kept = Vec::new(alloc);
    for item in items {
        let item = freed(item, exit);
        let behind = needed;
        exit = go_out_before(&item, behind, exit);
        needed = go_before(&item, behind);
        keep_if_needed(item, behind, &mut kept)?;
    }
    kept.reverse();
    Ok(kept)
}

// An item that names the next piece under the conditions of the way out behind it does so always.
fn freed(item: Item, exit: Option<Conds>) -> Item
    ensures { item_view result ≡ spec.freed (exit_view exit) (item_view item) }
{
    match item {
        Item::Step(step) => Item::Step(freed_step(step, exit)),
        other => other,
    }
}

fn freed_step(step: Step, exit: Option<Conds>) -> Step
    ensures { step_view result ≡ spec.freed_step (exit_view exit) (step_view step) }
{
    let (Step::When(conds, act), Some(exit)) = (step, exit) else {
        return step;
    };
    if act_names_next(act) && same_conds(conds, exit) {
        Step::Run(act)
    } else {
        step
    }
}

// Whether the name is needed before an item that stays where it is needed.
fn go_before(item: &Item, needed: bool) -> bool
    ensures { result ≡ need_before (item_view item.now) needed }
{
    if is_needless(item, needed) {
        needed
    } else {
        needed_before(item, needed)
    }
}

// The conditions of the way out with which the items begin, where the name isn't needed behind it.
fn go_out_before(item: &Item, needed: bool, exit: Option<Conds>) -> Option<Conds>
    ensures { exit_view result ≡ way_before (item_view item.now) needed (exit_view exit) }
{
    if is_needless(item, needed) {
        exit
    } else {
        exit_before(item, needed)
    }
}

fn exit_before(item: &Item, needed: bool) -> Option<Conds>
    ensures { exit_view result ≡ spec.exit_before (item_view item.now) needed }
{
    match item {
        Item::Step(Step::StopWhen(conds)) if !needed => Some(*conds),
        _ => None,
    }
}

// Adds an item, unless it names the next piece where the name isn't needed.
fn keep_if_needed(item: Item, needed: bool, kept: &mut Vec<Item>) -> Result<(), Memory>
    ensures { OnOk result (kept.new.items ≡ and_kept needed item kept.old.items) }
{
    if is_needless(&item, needed) {
        return Ok(());
    }
    kept.push(item)?;
    Ok(())
}
