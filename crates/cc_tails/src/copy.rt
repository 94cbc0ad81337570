// Items once more.
ghost use Rattle.std.specs.Prelude.{◌≡◌, IfOk};
ghost use Rattle.cc_line.specs.View.{item_view, items_view};

use cc_line::{Item, OpenStep};
use mc_nbt::Memory;
use std::alloc::Global;

fn copy_of_steps(alloc: Global, steps: &[OpenStep]) -> Result<Vec<OpenStep>, Memory>
    ensures { IfOk result (λ v. v.items ≡ steps.now) }
{
    let mut copy = Vec::new(alloc);
    copy.extend_from_slice(steps)?;
    Ok(copy)
}

fn copy_of_ints(alloc: Global, ints: &[i32]) -> Result<Vec<i32>, Memory>
    ensures { IfOk result (λ v. v.items ≡ ints.now) }
{
    let mut copy = Vec::new(alloc);
    copy.extend_from_slice(ints)?;
    Ok(copy)
}

// The same item.
#[cycle(copy)]
fn copy_of_item(alloc: Global, item: &Item) -> Result<Item, Memory>
    ensures { IfOk result (λ x. item_view x ≡ item_view item.now) }
{
    match item {
        Item::Step(step) => Ok(Item::Step(*step)),
        Item::Call { when, name, items } => {
            Ok(Item::Call {
                when: *when,
                name: *name,
                items: copy_of_items(alloc, items.as_slice())?,
            })
        }
        Item::Fill {
            when,
            name,
            site,
            steps,
        } => {
            Ok(Item::Fill {
                when: *when,
                name: *name,
                site: *site,
                steps: copy_of_steps(alloc, steps.as_slice())?,
            })
        }
        Item::LookUp {
            name,
            site,
            table,
            steps,
        } => {
            Ok(Item::LookUp {
                name: *name,
                site: *site,
                table: copy_of_ints(alloc, table.as_slice())?,
                steps: copy_of_steps(alloc, steps.as_slice())?,
            })
        }
        Item::Table(table) => Ok(Item::Table(copy_of_ints(alloc, table.as_slice())?)),
    }
}

/// The same items once more.
///
/// # Errors
///
/// `Memory` where there is no room for them.
#[cycle(copy)]
pub fn copy_of_items(alloc: Global, items: &[Item]) -> Result<Vec<Item>, Memory>
    ensures { IfOk result (λ v. items_view v.items ≡ items_view items.now) }
{
    let mut copies = Vec::new(alloc);
    for item in items {
        copies.push(copy_of_item(alloc, item)?)?;
    }
    Ok(copies)
}
