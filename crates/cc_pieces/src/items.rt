// Steps, acts and blocks that are added to items.
ghost use Rattle.std.specs.Prelude.{◌≡◌, ◌∷◌, [], ◌++◌, map, IfOk, OnOk};
ghost use Rattle.cc_line.specs.BlockView.{block_items};
ghost use Rattle.cc_line.specs.Item.{no_more};
ghost use Rattle.cc_line.specs.Step.{when};
ghost use Rattle.cc_line.specs.View.{act_view, conds_view, items_view, steps_view};
ghost use Rattle.cc_call.specs.Acts.{acts_then};
ghost use Rattle.cc_call.specs.View.{acts_view};
ghost use Rattle.cc_pieces.specs.View.{list_view};
ghost use Rattle.cc_pieces.specs.Lists.{acts_list, exit_list, listed, steps_list};

use cc_line::{Act, Block, Conds, Item, Step};
use mc_nbt::Memory;
use std::alloc::Global;

/// Adds steps.
///
/// # Errors
///
/// `Memory` where there is no room for them.
pub fn push_steps(steps: &[Step], items: &mut Vec<Item>) -> Result<(), Memory>
    ensures { OnOk result (list_view items.new.items ≡ list_view items.old.items ++ steps_list (steps_view steps.now)) }
{
    for step in steps {
        items.push(Item::step(*step))?;
    }
    Ok(())
}

/// Adds an act.
///
/// # Errors
///
/// `Memory` where there is no room for it.
pub fn push_act(act: Act, items: &mut Vec<Item>) -> Result<(), Memory>
    ensures { OnOk result (list_view items.new.items
        ≡ list_view items.old.items ++ acts_list (act_view act ∷ [])) }
{
    items.push(Item::step(Step::Run(act)))?;
    Ok(())
}

/// Adds acts.
///
/// # Errors
///
/// `Memory` where there is no room for them.
pub fn push_acts(acts: &[Act], items: &mut Vec<Item>) -> Result<(), Memory>
    ensures { OnOk result (list_view items.new.items ≡ list_view items.old.items ++ acts_list (acts_view acts.now)) }
{
    for act in acts {
        push_act(*act, items)?;
    }
    Ok(())
}

// The items of acts alone.
pub(crate) fn items_of_acts(alloc: Global, acts: &[Act]) -> Result<Vec<Item>, Memory>
    ensures { IfOk result (λ v. items_view v.items ≡ acts_then (acts_view acts.now) no_more) }
{
    let mut items = Vec::new(alloc);
    push_acts(acts, &mut items)?;
    Ok(items)
}

/// Adds acts where conditions hold.
///
/// # Errors
///
/// `Memory` where there is no room for them.
pub fn push_where(conds: Conds, acts: &[Act], items: &mut Vec<Item>) -> Result<(), Memory>
    ensures { OnOk result (list_view items.new.items
        ≡ list_view items.old.items ++ steps_list (map (when (conds_view conds)) (acts_view acts.now))) }
{
    for act in acts {
        items.push(Item::step(Step::When(conds, *act)))?;
    }
    Ok(())
}

/// Adds acts where conditions hold, and there the end.
///
/// # Errors
///
/// `Memory` where there is no room for them.
pub fn push_exit(conds: Conds, acts: &[Act], items: &mut Vec<Item>) -> Result<(), Memory>
    ensures { OnOk result (list_view items.new.items
        ≡ list_view items.old.items ++ exit_list (conds_view conds) (acts_view acts.now)) }
{
    push_where(conds, acts, items)?;
    items.push(Item::step(Step::StopWhen(conds)))?;
    Ok(())
}

/// Adds the items of a block.
///
/// # Errors
///
/// `Memory` where there is no room for them.
pub fn push_block(block: Block, items: &mut Vec<Item>) -> Result<(), Memory>
    ensures { OnOk result (list_view items.new.items
        ≡ list_view items.old.items ++ listed (block_items block)) }
{
    let mut more = block.into_items();
    items.append(&mut more)?;
    Ok(())
}
