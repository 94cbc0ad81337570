// The charges of a piece.
ghost use Rattle.std.specs.Prelude.{◌≡◌, ◌+◌, IfOk, OnOk};
ghost use Rattle.cc_line.specs.BlockView.{block_items};
ghost use Rattle.cc_line.specs.Item.{first, item_most, join, no_more, step_item};
ghost use Rattle.cc_line.specs.Step.{step_weight, stop_when};
ghost use Rattle.cc_line.specs.View.{conds_view, item_view, items_view, step_view};
ghost use Rattle.cc_sched.specs.Charge.{charge, round_weight, take_charge};
ghost use Rattle.cc_sched.specs.steps.Charging as spec;

use cc_line::{Act, Block, Conds, Item, Scratch, Spot, Step, push_steps, sum, weight_of};
use mc_nbt::Memory;
use std::alloc::Global;

// What a round of a tick weighs besides its piece.
const ROUND_WEIGHT: u32 = 5;

/// The block with its charges: before each way out what is run up to it and not paid yet is taken from the budget, with
/// the round where it is the first.
///
/// # Errors
///
/// `Memory` where there is no room for it, or what is run is no int.
pub fn charged(alloc: Global, block: Block) -> Result<Block, Memory>
    ensures { IfOk result (λ b. block_items b ≡ charge round_weight (block_items block)) }
{
    let mut charged = Vec::new(alloc);
    let mut owed = ROUND_WEIGHT;
    for item in block.into_items() {
        owed = push_charged(alloc, item, owed, &mut charged)?;
    }
    push_steps(&[charge_step(sum(owed, 1)?)], &mut charged)?;
    Block::of(charged)
}

// Adds an item, behind its charge where it is a way out, and tells what is to be paid then.
#[tactic(auto, using(crate::proofs::ChargingLemmas::call_alone, crate::proofs::ChargingLemmas::fill_alone, crate::proofs::ChargingLemmas::call_owed, crate::proofs::ChargingLemmas::fill_owed,))]
fn push_charged(
    alloc: Global,
    item: Item,
    owed: u32,
    charged: &mut Vec<Item>,
) -> Result<u32, Memory>
    ensures counted { IfOk result (λ n. n ≡ spec.owed owed (item_view item)) }
    ensures added { OnOk result (items_view charged.new.items
        ≡ join (items_view charged.old.items) (spec.with_charge owed (item_view item))) }
{
    match item {
        Item::Step(step) => push_step(step, owed, charged),
        Item::Call { when, name, items } => {
            push_uncharged(alloc, Item::Call { when, name, items }, owed, charged)
        }
        Item::Fill {
            when,
            name,
            site,
            steps,
        } => {
            let fill = Item::Fill {
                when,
                name,
                site,
                steps,
            };
            push_uncharged(alloc, fill, owed, charged)
        }
        Item::LookUp {
            name,
            site,
            table,
            steps,
        } => {
            let look_up = Item::look_up(name, site, table, steps);
            push_uncharged(alloc, look_up, owed, charged)
        }
        Item::Table(table) => push_uncharged(alloc, Item::table(table), owed, charged),
    }
}

fn push_step(step: Step, owed: u32, charged: &mut Vec<Item>) -> Result<u32, Memory>
    ensures counted { IfOk result (λ n. n ≡ spec.owed owed (step_item (step_view step))) }
    ensures added { OnOk result (items_view charged.new.items
        ≡ join (items_view charged.old.items) (spec.with_charge owed (step_item (step_view step)))) }
{
    match step {
        Step::StopWhen(conds) => push_way_out(conds, owed, charged),
        Step::Run(act) => push_plain(Step::Run(act), owed, charged),
        Step::When(conds, act) => push_plain(Step::When(conds, act), owed, charged),
    }
}

fn push_plain(step: Step, owed: u32, charged: &mut Vec<Item>) -> Result<u32, Memory>
    ensures counted { IfOk result (λ n. n ≡ owed + step_weight (step_view step)) }
    ensures added { OnOk result (items_view charged.new.items
        ≡ join (items_view charged.old.items) (first (step_item (step_view step)) no_more)) }
{
    push_steps(&[step], charged)?;
    sum(owed, weight_of(step))
}

fn push_way_out(conds: Conds, owed: u32, charged: &mut Vec<Item>) -> Result<u32, Memory>
    ensures paid { IfOk result (λ n. n ≡ 0) }
    ensures added { OnOk result (items_view charged.new.items
        ≡ join (items_view charged.old.items)
        (first (take_charge (owed + 3)) (first (step_item (stop_when (conds_view conds))) no_more))) }
{
    let step = charge_step(sum(owed, 3)?);
    push_steps(&[step, Step::StopWhen(conds)], charged)?;
    Ok(0)
}

// Adds an item that is no way out, so that no charge stands before it.
fn push_uncharged(
    alloc: Global,
    item: Item,
    owed: u32,
    charged: &mut Vec<Item>,
) -> Result<u32, Memory>
    ensures counted { IfOk result (λ n. n ≡ owed + item_most (item_view item)) }
    ensures added { OnOk result (items_view charged.new.items
        ≡ join (items_view charged.old.items) (first (item_view item) no_more)) }
{
    let mut alone = Vec::new(alloc);
    alone.push(item)?;
    let block = Block::of(alone)?;
    let all = sum(owed, block.weight())?;
    let mut items = block.into_items();
    charged.append(&mut items)?;
    Ok(all)
}

// The step that takes so much from the budget.
fn charge_step(charge: u32) -> Step
    ensures { step_item (step_view result) ≡ take_charge charge }
{
    Step::Run(Act::Decrease {
        spot: Spot::Scratch(Scratch::Charge),
        by: charge,
    })
}
