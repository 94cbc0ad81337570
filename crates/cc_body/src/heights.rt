// The heights of a function's cuts.
ghost use Rattle.std.specs.Prelude.{◌≡◌, IfOk};
ghost use Rattle.cc_cut.specs.Piece.{function_pieces};
ghost use Rattle.cc_body.specs.Layout.{cut_heights};
ghost use Rattle.cc_body.specs.steps.Heights.{IsMeasured};

use cc_cut::{is_cut, place_cost, widths};
use cc_line::sum;
use mc_nbt::Memory;
use std::alloc::Global;
use wm_ast::ValType;
use wm_place::{Stop, Visitor, walk};
use wm_valid::Typed;

// Finds how many places locals and operands take at each cut, where the locals take so many, and the open piece has come to
// so much.
#[derive(Drop)]
pub(crate) struct Measuring {
    locals: u32,
    spent: u32,
    heights: Vec<u32>,
}

impl Visitor for Measuring {
    ghost visit_gives = { λ s v t. IsMeasured s.locals s.spent s.heights.items v t.locals t.spent t.heights.items };

    fn visit(&mut self, stop: Stop<'_>) -> Result<(), Memory> {
        let cost = place_cost(stop);
        if is_cut(self.spent, stop) {
            let height = sum(self.locals, widths(stop.kinds)?)?;
            self.heights.push(height)?;
            self.spent = cost;
        } else {
            self.spent += cost;
        }
        Ok(())
    }
}

/// The heights of the cuts of the function of this index, whose locals have these types. It goes through the body once.
pub(crate) fn cut_heights(
    alloc: Global,
    m: &Typed,
    func: u32,
    locals: &[ValType],
) -> Result<Vec<u32>, Memory>
    ensures { IfOk result (λ hs. hs.items ≡ cut_heights locals.now (function_pieces m.now func)) }
{
    let own = widths(locals)?;
    let mut measuring = Measuring {
        locals: own,
        spent: 0,
        heights: Vec::new(alloc),
    };
    walk(alloc, m, func, &mut measuring)?;
    Ok(measuring.heights)
}
