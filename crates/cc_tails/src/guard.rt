// Items with others behind them.
ghost use Rattle.std.specs.Prelude.{◌≡◌, IfOk};
ghost use Rattle.cc_line.specs.BlockView.{block_items};
ghost use Rattle.cc_line.specs.Item.{join};
ghost use Rattle.cc_tails.specs.Tails.{guarded};

use crate::copy::copy_of_items;
use crate::stops::trap_stop;
use crate::traps::ends_trapped;
use cc_line::{Block, Item, push_item};
use mc_nbt::Memory;
use std::alloc::Global;

// The items, and the end of the list where a trap may be recorded behind them.
fn guarded(block: Block) -> Result<Block, Memory>
    ensures { IfOk result (λ b. block_items b ≡ guarded (block_items block)) }
{
    if !ends_trapped(block.items()) {
        return Ok(block);
    }
    let mut items = block.into_items();
    push_item(Item::step(trap_stop()), &mut items)?;
    Block::of(items)
}

// The same with the items of a cut once more behind them; no memory where there is no room for these.
pub(crate) fn with_cut(alloc: Global, block: Block, cut: &Block) -> Result<Block, Memory>
    ensures { IfOk result (λ b. block_items b ≡ join (guarded (block_items block)) (block_items cut.now)) }
{
    let copy = Block::of(copy_of_items(alloc, cut.items())?)?;
    guarded(block)?.join(copy)
}
