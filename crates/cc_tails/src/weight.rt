// What items weigh with a line for each way out.
ghost use Rattle.std.specs.Prelude.{◌≡◌, ◌+◌, nat_le, IfOk};
ghost use Rattle.cc_line.specs.BlockView.{block_items};
ghost use Rattle.cc_line.specs.Item.{items_most, join};
ghost use Rattle.cc_line.specs.View.{item_view, items_view};
ghost use Rattle.cc_sched.specs.Charge.{exits};
ghost use Rattle.cc_tails.specs.Tails.{guarded, most_weight};
ghost use Rattle.cc_tails.specs.steps.Ways.{guard_weight, item_exits};

use crate::traps::ends_trapped;
use cc_line::{Block, Item, Step, sum};
use mc_nbt::Memory;

// The most that items weigh that run on, and the end of the first ones, which is no way out any more.
const MOST_WEIGHT: u32 = 200;

const MOST_OF_BOTH: u32 = MOST_WEIGHT + 1;

fn exits_of(item: &Item) -> u32
    ensures { result ≡ item_exits (item_view item.now) }
{
    match item {
        Item::Step(Step::StopWhen(_)) => 1,
        _ => 0,
    }
}

// The ways out of items.
fn exits(items: &[Item]) -> Result<u32, Memory>
    ensures { IfOk result (λ n. n ≡ exits (items_view items.now)) }
{
    let mut count = 1;
    for item in items {
        count = sum(count, exits_of(item))?;
    }
    Ok(count)
}

fn weight(block: &Block) -> Result<u32, Memory>
    ensures { IfOk result (λ n. n ≡ items_most (block_items block.now) + exits (block_items block.now)) }
{
    sum(block.weight(), exits(block.items())?)
}

// The same of a stop at a trap, where one comes in between.
fn guard_weight(block: &Block) -> u32
    ensures { result ≡ guard_weight (block_items block.now) }
{
    if ends_trapped(block.items()) { 3 } else { 0 }
}

// Whether items and those of a cut behind them are light enough; no memory where they weigh 2^32 or more.
#[tactic(auto, using(crate::proofs::Weights::both_light))]
pub(crate) fn is_light(block: &Block, cut: &Block) -> Result<bool, Memory>
    ensures { IfOk result (λ b. b ≡ nat_le (items_most (join (guarded (block_items block.now)) (block_items cut.now))
        + exits (join (guarded (block_items block.now)) (block_items cut.now))) most_weight) }
{
    let both = sum(weight(block)?, weight(cut)?)?;
    Ok(sum(both, guard_weight(block))? <= MOST_OF_BOTH)
}
