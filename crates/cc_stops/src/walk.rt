// The walk over items from the end to the beginning.
ghost use Rattle.std.specs.Prelude.{◌≡◌, IfOk, OnOk};
ghost use Rattle.cc_line.specs.View.{item_view, items_view};
ghost use Rattle.cc_stops.specs.Stops as spec;
ghost use Rattle.cc_stops.specs.steps.Walk.{and_if_needed, before};

use crate::harmless::is_harmless;
use crate::stops::is_trap_stop;
use cc_line::Item;
use mc_nbt::Memory;
use std::alloc::Global;

/// The items without each stop at a trap behind which all is harmless up to the next one.
///
/// # Errors
///
/// `Memory` where there is no room for the items that stay.
pub fn without_stops(alloc: Global, mut items: Vec<Item>) -> Result<Vec<Item>, Memory>
    ensures { IfOk result (λ v. items_view v.items ≡ spec.without_stops (items_view items.items)) }
{
    let mut calm = true;
    items.reverse();
    let mut kept = Vec::new(alloc);
    for item in items {
        let behind = calm;
        calm = go_before(&item, behind);
        keep_if_needed(item, behind, &mut kept)?;
    }
    kept.reverse();
    Ok(kept)
}

// Whether all is harmless from an item on, by whether it is behind it.
fn go_before(item: &Item, calm: bool) -> bool
    ensures { result ≡ before (item_view item.now) calm }
{
    is_trap_stop(item) || is_harmless(item) && calm
}

// Adds an item, unless it is a stop at a trap behind which all is harmless.
fn keep_if_needed(item: Item, calm: bool, kept: &mut Vec<Item>) -> Result<(), Memory>
    ensures { OnOk result (kept.new.items ≡ and_if_needed calm item kept.old.items) }
{
    if is_trap_stop(&item) && calm {
        return Ok(());
    }
    kept.push(item)?;
    Ok(())
}
