// Scratch scores that items surely set.
ghost use Rattle.std.specs.Prelude.{◌≡◌, IfOk, OnOk, map};
ghost use Rattle.cc_line.specs.View.{act_view, item_view, items_view, open_act_view, open_step_view, open_steps_view};
ghost use Rattle.cc_line.specs.View.{scratch_text, spot_view, step_view};
ghost use Rattle.mc_cmd.specs.View.{op_view};
ghost use Rattle.cc_unread.specs.Sure as spec;

use crate::reads::is_assign;
use cc_line::{Act, Item, OpenAct, OpenStep, Scratch, Spot, Step};
use mc_cmd::Op;
use mc_nbt::Memory;
use std::alloc::Global;

/// Whether each scratch score that items keep to a place was surely set by them before.
///
/// # Errors
///
/// `Memory` where there is no room for the scratch scores that are set.
pub fn is_sure(alloc: Global, items: &[Item]) -> Result<bool, Memory>
    ensures { IfOk result (λ b. b ≡ spec.is_sure (items_view items.now)) }
{
    let mut set = Vec::new(alloc);
    for item in items {
        if !is_item_sure(set.as_slice(), item) {
            return Ok(false);
        }
        set_by_item(item, &mut set)?;
    }
    Ok(true)
}

fn is_item_sure(set: &[Scratch], item: &Item) -> bool
    ensures { result ≡ spec.item_is_sure (map scratch_text set.now) (item_view item.now) }
{
    match item {
        Item::Step(Step::Run(act)) => is_act_sure(set, *act),
        Item::Step(_)
        | Item::Call { .. }
        | Item::Fill { .. }
        | Item::LookUp { .. }
        | Item::Table(_) => true,
    }
}

fn is_act_sure(set: &[Scratch], act: Act) -> bool
    ensures { result ≡ spec.act_is_sure (map scratch_text set.now) (act_view act) }
{
    match act {
        Act::Combine { to, op, from } => is_kept_sure(set, to, op, from),
        Act::KeepPlace { from, .. } => is_set(set, from),
        _ => true,
    }
}

fn is_kept_sure(set: &[Scratch], to: Spot, op: Op, from: Spot) -> bool
    ensures { result ≡ spec.kept_is_sure (map scratch_text set.now) (spot_view to) (op_view op) (spot_view from) }
{
    match (to, from) {
        (Spot::Place(_), Spot::Scratch(from)) => !is_assign(op) || is_set(set, from),
        _ => true,
    }
}

fn is_set(set: &[Scratch], scratch: Scratch) -> bool
    ensures { result ≡ spec.is_set (map scratch_text set.now) (scratch_text scratch) }
{
    for one in set {
        if one.holder() == scratch.holder() {
            return true;
        }
    }
    false
}

fn is_spot_set(set: &[Scratch], spot: Spot) -> bool
    ensures { result ≡ spec.spot_is_set (map scratch_text set.now) (spot_view spot) }
{
    match spot {
        Spot::Scratch(scratch) => is_set(set, scratch),
        Spot::Place(_) => true,
    }
}

fn set_one(scratch: Scratch, set: &mut Vec<Scratch>) -> Result<(), Memory>
    ensures { OnOk result (map scratch_text set.new.items ≡ spec.and_one (map scratch_text set.old.items) (scratch_text scratch)) }
{
    if !is_set(set.as_slice(), scratch) {
        set.push(scratch)?;
    }
    Ok(())
}

fn set_spot(spot: Spot, set: &mut Vec<Scratch>) -> Result<(), Memory>
    ensures { OnOk result (map scratch_text set.new.items ≡ spec.and_spot (map scratch_text set.old.items) (spot_view spot)) }
{
    match spot {
        Spot::Scratch(scratch) => set_one(scratch, set),
        Spot::Place(_) => Ok(()),
    }
}

// What an item that leads on sets.
#[cycle(sets)]
fn set_by_item(item: &Item, set: &mut Vec<Scratch>) -> Result<(), Memory>
    ensures { OnOk result (map scratch_text set.new.items ≡ spec.item_sets (map scratch_text set.old.items) (item_view item.now)) }
{
    match item {
        Item::Step(step) => set_by_step(*step, set),
        Item::Call {
            when: None,
            items,
            ..
        } => set_by_items(items.as_slice(), set),
        Item::Fill {
            when: None,
            steps,
            ..
        } => set_by_open_steps(steps.as_slice(), set),
        // Its first line sets a table, and no score.
        Item::LookUp { steps, .. } => set_by_open_steps(steps.as_slice(), set),
        Item::Call { .. } | Item::Fill { .. } | Item::Table(_) => Ok(()),
    }
}

#[cycle(sets)]
fn set_by_items(items: &[Item], set: &mut Vec<Scratch>) -> Result<(), Memory>
    ensures { OnOk result (map scratch_text set.new.items ≡ spec.items_sets (map scratch_text set.old.items) (items_view items.now)) }
{
    for item in items {
        if may_item_stop(item) {
            return Ok(());
        }
        set_by_item(item, set)?;
    }
    Ok(())
}

fn may_item_stop(item: &Item) -> bool
    ensures { result ≡ spec.item_may_stop (item_view item.now) }
{
    match item {
        Item::Step(step) => may_stop(*step),
        Item::Call { .. } | Item::Fill { .. } | Item::LookUp { .. } | Item::Table(_) => false,
    }
}

fn may_stop(step: Step) -> bool
    ensures { result ≡ spec.may_stop (step_view step) }
{
    match step {
        Step::StopWhen(_) => true,
        Step::Run(_) | Step::When(_, _) => false,
    }
}

fn set_by_open_steps(steps: &[OpenStep], set: &mut Vec<Scratch>) -> Result<(), Memory>
    ensures { OnOk result (map scratch_text set.new.items ≡ spec.open_steps_sets (map scratch_text set.old.items) (open_steps_view steps.now)) }
{
    for step in steps {
        if may_open_stop(*step) {
            return Ok(());
        }
        set_by_open_step(*step, set)?;
    }
    Ok(())
}

fn may_open_stop(step: OpenStep) -> bool
    ensures { result ≡ spec.open_may_stop (open_step_view step) }
{
    match step {
        OpenStep::Closed(step) => may_stop(step),
        OpenStep::Run(_) | OpenStep::When(_, _) => false,
    }
}

fn set_by_open_step(step: OpenStep, set: &mut Vec<Scratch>) -> Result<(), Memory>
    ensures { OnOk result (map scratch_text set.new.items ≡ spec.open_step_sets (map scratch_text set.old.items) (open_step_view step)) }
{
    match step {
        OpenStep::Closed(step) => set_by_step(step, set),
        OpenStep::Run(act) => set_by_open_act(act, set),
        OpenStep::When(_, _) => Ok(()),
    }
}

fn set_by_open_act(act: OpenAct, set: &mut Vec<Scratch>) -> Result<(), Memory>
    ensures { OnOk result (map scratch_text set.new.items ≡ spec.open_act_sets (map scratch_text set.old.items) (open_act_view act)) }
{
    match act {
        OpenAct::LoadSite { to, .. } => set_one(to, set),
        _ => Ok(()),
    }
}

fn set_by_step(step: Step, set: &mut Vec<Scratch>) -> Result<(), Memory>
    ensures { OnOk result (map scratch_text set.new.items ≡ spec.step_sets (map scratch_text set.old.items) (step_view step)) }
{
    match step {
        Step::Run(act) => set_by_act(act, set),
        Step::When(_, _) | Step::StopWhen(_) => Ok(()),
    }
}

fn set_by_act(act: Act, set: &mut Vec<Scratch>) -> Result<(), Memory>
    ensures { OnOk result (map scratch_text set.new.items ≡ spec.act_sets (map scratch_text set.old.items) (act_view act)) }
{
    match act {
        Act::SetSpot { spot, .. } | Act::Increase { spot, .. } | Act::Decrease { spot, .. } => {
            set_spot(spot, set)
        }
        Act::Combine { to, op, from } => set_by_combined(to, op, from, set),
        Act::LoadPlace { to, .. } | Act::LoadSite { to, .. } => set_one(to, set),
        _ => Ok(()),
    }
}

fn set_by_combined(to: Spot, op: Op, from: Spot, set: &mut Vec<Scratch>) -> Result<(), Memory>
    ensures { OnOk result (map scratch_text set.new.items ≡ spec.combined_sets (map scratch_text set.old.items) (spot_view to) (op_view op) (spot_view from)) }
{
    if is_assign(op) && is_spot_set(set.as_slice(), from) {
        set_spot(to, set)
    } else {
        Ok(())
    }
}
