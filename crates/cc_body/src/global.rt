// What instructions on globals add to their piece.
ghost use Rattle.std.specs.Prelude.{◌≡◌, ◌++◌, ◌-◌, IfOk, OnOk};
ghost use Rattle.cc_line.specs.View.{site_view};
ghost use Rattle.cc_call.specs.View.{acts_view};
ghost use Rattle.cc_body.specs.Emit.{global_get_acts, global_set_acts, places_of};
ghost use Rattle.cc_body.specs.Storage.{global_site, type_of_global};
ghost use Rattle.cc_pieces.specs.View.{list_view};
ghost use Rattle.cc_pieces.specs.Lists.{acts_list};

use crate::body::Body;
use cc_cut::width;
use cc_line::{Act, Below, Item, Key, Part, Site, Store, int_of, sum};
use cc_pieces::push_acts;
use mc_nbt::Memory;
use wm_ast::Module;

/// Where an int of a global stands: of an i64 the low half is the int 0, and the high half the int 1.
///
/// # Errors
///
/// `Memory` where a number is 2^31 or more.
pub fn global_site(global: u32, int: u32) -> Result<Site, Memory>
    ensures { IfOk result (λ p. site_view p ≡ global_site global int) }
{
    let at = int_of(global)?;
    let half = int_of(int)?;
    Ok(Site {
        store: Store::Memory,
        key: Key::Globals,
        below: Below::Two(Part::Place(at), Part::Place(half)),
    })
}

// The places of a global's value.
fn global_places(m: &Module, global: u32) -> u32
    ensures { result ≡ places_of (type_of_global m.now global) }
{
    match m.globals.get(global as usize) {
        Some(global) => width(global.ty),
        None => 0,
    }
}

// So many ints of a global, to the places from one on.
fn push_gets(global: u32, count: u32, to: u32, acts: &mut Vec<Act>) -> Result<(), Memory>
    ensures { OnOk result (acts_view acts.new.items ≡ acts_view acts.old.items ++ global_get_acts global 0 count to) }
{
    for index in 0..count {
        let place = sum(to, index)?;
        let site = global_site(global, index)?;
        acts.push(Act::SiteToPlace { place, site })?;
    }
    Ok(())
}

// So many places, from one on, to the ints of a global.
fn push_sets(global: u32, count: u32, from: u32, acts: &mut Vec<Act>) -> Result<(), Memory>
    ensures { OnOk result (acts_view acts.new.items ≡ acts_view acts.old.items ++ global_set_acts global 0 count from) }
{
    for index in 0..count {
        let place = sum(from, index)?;
        let site = global_site(global, index)?;
        acts.push(Act::PlaceToSite { site, place })?;
    }
    Ok(())
}

/// A global to the places above the operands.
pub(crate) fn push_global_get(
    body: &Body<'_>,
    global: u32,
    top: u32,
    items: &mut Vec<Item>,
) -> Result<(), Memory>
    ensures { OnOk result (list_view items.new.items ≡ list_view items.old.items
        ++ acts_list (global_get_acts global 0 (places_of (type_of_global body.now.module.now global)) top)) }
{
    let count = global_places(body.module, global);
    let mut acts = Vec::new(body.alloc);
    push_gets(global, count, top, &mut acts)?;
    push_acts(acts.as_slice(), items)
}

/// The last operand to a global.
pub(crate) fn push_global_set(
    body: &Body<'_>,
    global: u32,
    top: u32,
    items: &mut Vec<Item>,
) -> Result<(), Memory>
    ensures { OnOk result (list_view items.new.items ≡ list_view items.old.items
        ++ acts_list (global_set_acts global 0 (places_of (type_of_global body.now.module.now global))
        (top - places_of (type_of_global body.now.module.now global)))) }
{
    let count = global_places(body.module, global);
    let mut acts = Vec::new(body.alloc);
    push_sets(global, count, top.saturating_sub(count), &mut acts)?;
    push_acts(acts.as_slice(), items)
}
