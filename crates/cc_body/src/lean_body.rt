// A body whose cuts have their lean items.
ghost use Rattle.std.specs.Prelude.{◌≡◌, IfOk};
ghost use Rattle.cc_line.specs.View.{items_view, piece_view};
ghost use Rattle.cc_pieces.specs.Parts.{part, part_view};
ghost use Rattle.cc_body.specs.steps.PartBuilder.{running};

use crate::body::Body;
use cc_line::{Block, Item, PieceId};
use cc_passes::lean;
use cc_pieces::{Part, part_of};
use cc_tails::tailed;
use mc_nbt::Memory;

/// A body, and the lean items of its cuts, in their order.
#[derive(Clone, Copy)]
pub(crate) struct LeanBody<'a> {
    pub body: Body<'a>,
    pub cuts: &'a [Block],
}

impl LeanBody<'_> {
    // These items, which run on over the cuts, and are made lean once more: nobody reads the places that are written
    // for a cut, where its own items stand behind that.
    fn run_on(&self, items: Vec<Item>) -> Result<Vec<Item>, Memory>
        ensures { IfOk result (λ xs. items_view xs.items ≡ running self.now (items_view items.items)) }
    {
        let Body {
            alloc,
            func,
            heights,
            ..
        } = self.body;
        let block = tailed(alloc, func, self.cuts, Block::of(items)?)?;
        lean(alloc, func, heights, None, block.into_items())
    }

    /// The piece of these items, which run on so.
    pub(crate) fn part(&self, id: PieceId, items: Vec<Item>) -> Result<Part, Memory>
        ensures { IfOk result (λ p. part_view p ≡ part (piece_view id) (running self.now (items_view items.items))) }
    {
        part_of(self.body.alloc, id, self.run_on(items)?)
    }
}
