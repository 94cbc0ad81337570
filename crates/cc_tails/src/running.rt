// Running on.
ghost use Rattle.std.specs.Prelude.{◌≡◌, map, option_map, IfOk};
ghost use Rattle.cc_line.specs.BlockView.{block_items};
ghost use Rattle.cc_line.specs.Item.{join};
ghost use Rattle.cc_tails.specs.Tails as spec;
ghost use Rattle.cc_tails.specs.steps.Ways.{further_on};

use crate::guard::with_cut;
use crate::named::last_named;
use crate::weight::is_light;
use cc_line::Block;
use mc_nbt::Memory;
use std::alloc::Global;

// Over so many cuts items run on.
const MOST_CUTS: u32 = 8;

// The cut of this number; cuts count from 1.
fn cut_at(cuts: &[Block], index: u32) -> Option<&Block>
    ensures { option_map (λ b. block_items b.now) result ≡ spec.items_at (map block_items cuts.now) index }
{
    let position = index.checked_sub(1)?;
    cuts.get(position as usize)
}

// The number of the cut that items name at their end, where it is further on than this one.
fn further_on(func: u32, at: u32, block: &Block) -> Option<u32>
    ensures { result ≡ further_on at (spec.last_named func (block_items block.now)) }
{
    let index = last_named(func, block.items())?;
    if at < index { Some(index) } else { None }
}

// The cut of this number, where the items with its own behind them are light enough.
fn light_cut<'a>(cuts: &'a [Block], index: u32, block: &Block) -> Result<Option<&'a Block>, Memory>
    ensures { IfOk result (λ o. option_map (λ b. join (spec.guarded (block_items block.now)) (block_items b.now)) o
        ≡ spec.with_cut (block_items block.now) (spec.items_at (map block_items cuts.now) index)) }
{
    let Some(cut) = cut_at(cuts, index) else {
        return Ok(None);
    };
    if is_light(block, cut)? {
        Ok(Some(cut))
    } else {
        Ok(None)
    }
}

/// The items of a block of the function of this index, whose cuts, in their order, are these blocks. Behind items
/// whose last one in any case names a cut of the function as the next piece, the items of that cut stand once more, so
/// that no round of the scheduler lies between: over at most 8 cuts, each further on than the last one, while all
/// weighs at most 200 with a line for each way out. Where a trap may be recorded a stop at a trap comes in between.
///
/// # Errors
///
/// `Memory` where there is no room for the items, or they weigh 2^32 or more.
#[tactic(auto, unfolding(crate::specs::Tails::tailed))]
pub fn tailed(alloc: Global, func: u32, cuts: &[Block], block: Block) -> Result<Block, Memory>
    ensures { IfOk result (λ b. block_items b ≡ spec.tailed func (map block_items cuts.now) (block_items block)) }
{
    let mut block = block;
    let mut at = 0;
    let mut left = MOST_CUTS;
    while left > 0 {
        let Some(index) = further_on(func, at, &block) else {
            return Ok(block);
        };
        let Some(cut) = light_cut(cuts, index, &block)? else {
            return Ok(block);
        };
        block = with_cut(alloc, block, cut)?;
        at = index;
        left -= 1;
    }
    Ok(block)
}
