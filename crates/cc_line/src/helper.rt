// The helpers that items call, each once.
ghost use Rattle.std.specs.Prelude.{◌≡◌, IfOk, OnOk};
ghost use Rattle.cc_line.specs.BlockView.{functions_view};
ghost use Rattle.cc_line.specs.Helpers.{has_helper, with_helper, with_helpers};
ghost use Rattle.cc_line.specs.Item.{item_helpers, items_helpers};
ghost use Rattle.cc_line.specs.View.{item_view, items_view, name_text};
ghost use Rattle.cc_line.specs.steps.Called.{called_lines, helper};

use crate::printing::{print_items, print_look_up, print_open_steps};
use crate::word::helper_name;
use crate::{Function, Functions, Item, Name};
use mc_nbt::{Memory, Text, Texts};
use std::alloc::Global;

// Adds the helpers that items call, and those that these call, if none of their names is there.
#[cycle(helpers)]
pub(crate) fn add_helpers(
    alloc: Global,
    items: &[Item],
    ns: &Text,
    found: &mut Functions,
) -> Result<(), Memory>
    ensures { OnOk result (functions_view found.new ≡ with_helpers (functions_view found.old)
        (items_helpers ns.now (items_view items.now))) }
{
    for item in items {
        add_helper(alloc, item, ns, found)?;
    }
    Ok(())
}

#[cycle(helpers)]
#[tactic(auto, using(crate::proofs::CallLemmas::call_helpers, crate::proofs::CallLemmas::fill_helpers,))]
fn add_helper(alloc: Global, item: &Item, ns: &Text, found: &mut Functions) -> Result<(), Memory>
    ensures { OnOk result (functions_view found.new ≡ with_helpers (functions_view found.old)
        (item_helpers ns.now (item_view item.now))) }
{
    match item {
        Item::Step(_) | Item::Table(_) => Ok(()),
        Item::Call { name, items, .. } => {
            add_function(alloc, *name, item, ns, found)?;
            add_helpers(alloc, items.as_slice(), ns, found)
        }
        Item::Fill { name, .. } | Item::LookUp { name, .. } => {
            add_function(alloc, *name, item, ns, found)
        }
    }
}

// Adds the helper of an item, of this name, if the name isn't there.
fn add_function(
    alloc: Global,
    name: Name,
    item: &Item,
    ns: &Text,
    found: &mut Functions,
) -> Result<(), Memory>
    ensures { OnOk result (functions_view found.new ≡ with_helper (functions_view found.old)
        (helper (name_text name) (called_lines ns.now (item_view item.now)))) }
{
    let name = helper_name(alloc, name)?;
    if has_function(found, name.as_str()) {
        return Ok(());
    }
    let lines = lines_of_called(alloc, item, ns)?;
    found.push(Function { name, lines })?;
    Ok(())
}

// The lines of the helper that an item calls.
#[tactic(auto, using(crate::proofs::CallLemmas::call_lines, crate::proofs::CallLemmas::fill_lines))]
fn lines_of_called(alloc: Global, item: &Item, ns: &Text) -> Result<Texts, Memory>
    ensures { IfOk result (λ t. t ≡ called_lines ns.now (item_view item.now)) }
{
    match item {
        Item::Step(_) | Item::Table(_) => Ok(Texts::new(alloc)),
        Item::Call { items, .. } => print_items(alloc, items.as_slice(), ns),
        Item::Fill { steps, .. } => print_open_steps(alloc, steps.as_slice(), ns),
        Item::LookUp { table, steps, .. } => {
            print_look_up(alloc, table.as_slice(), steps.as_slice(), ns)
        }
    }
}

fn has_function(functions: &Functions, name: &str) -> bool
    ensures { result ≡ has_helper name.now (functions_view functions.now) }
{
    for function in functions.as_slice() {
        if function.name.as_str() == name {
            return true;
        }
    }
    false
}
