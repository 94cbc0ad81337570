// The pieces of a body whose cuts have their lean items, made on a way through it.
ghost use Rattle.std.specs.Prelude.{◌≡◌, ◌++◌, suc, OnOk};
ghost use Rattle.wm_place.specs.Stop.{visit_told};
ghost use Rattle.cc_pieces.specs.Parts.{parts_view};
ghost use Rattle.cc_body.specs.steps.PartBuilder.{own, passed, reached};

use crate::body::Body;
use crate::lean_body::LeanBody;
use crate::restoring::push_restored;
use cc_cut::{is_cut, place_cost};
use cc_line::{PieceId, sum};
use cc_pieces::Part;
use cc_tails::copy_of_items;
use mc_nbt::Memory;
use wm_place::{Stop, Visitor};

// What the piece has come to, the index of its cut, or 0 before the first, and the pieces up to it.
#[derive(Drop)]
pub(crate) struct PartBuilder<'a> {
    pub lean: LeanBody<'a>,
    pub spent: u32,
    pub index: u32,
    pub parts: Vec<Part>,
}

// Adds the piece of the cut at this position, which counts from 0.
fn push_own(lean: &LeanBody<'_>, position: u32, parts: &mut Vec<Part>) -> Result<(), Memory>
    ensures { OnOk result (parts_view parts.new.items ≡ parts_view parts.old.items ++ own lean.now (suc position)) }
{
    let Some(block) = lean.cuts.get(position as usize) else {
        return Ok(());
    };
    let index = sum(position, 1)?;
    let Body { alloc, func, .. } = lean.body;
    let items = copy_of_items(alloc, block.items())?;
    parts.push(lean.part(PieceId::Body { func, index }, items)?)?;
    Ok(())
}

impl PartBuilder<'_> {
    // Adds the pieces of a cut, where the place is one.
    fn pass(&mut self, stop: Stop<'_>) -> Result<(), Memory>
        ensures reached { OnOk result (reached self.new
            ≡ passed self.old.lean (reached self.old) (visit_told stop.entry)) }
        ensures lean { OnOk result (self.new.lean ≡ self.old.lean) }
    {
        let cost = place_cost(stop);
        if is_cut(self.spent, stop) {
            let position = self.index;
            let index = sum(position, 1)?;
            push_restored(&self.lean, index, stop, &mut self.parts)?;
            push_own(&self.lean, position, &mut self.parts)?;
            self.index = index;
            self.spent = cost;
        } else {
            self.spent += cost;
        }
        Ok(())
    }
}

impl Visitor for PartBuilder<'_> {
    ghost visit_gives = { λ s v t. (reached t ≡ passed s.lean (reached s) v) × (t.lean ≡ s.lean) };

    fn visit(&mut self, stop: Stop<'_>) -> Result<(), Memory> {
        self.pass(stop)
    }
}
