// What stands at a cut.
ghost use Rattle.std.specs.Prelude.{◌≡◌, IfOk, MatchOption};
ghost use Rattle.std.specs.List.{Contains};
ghost use Rattle.cc_cut.specs.declared.table.Cut.{Cut};
ghost use Rattle.cc_cut.specs.Cuts.{function_cuts};
ghost use Rattle.cc_spots.specs.Spot.{IsSpot};
ghost use Rattle.cc_spots.specs.steps.Search.{IsPassed, chosen, numbered};
ghost use Rattle.cc_cut.specs.Piece.{function_pieces};

use crate::place::spot_shown;
use crate::size::size_over;
use cc_cut::{is_cut, place_cost};
use mc_nbt::Memory;
use std::alloc::Global;
use wm_ast::{BinaryOp, FuncType, Module, U32s, ValType, ValTypes};
use wm_place::{Stop, Visitor, walk};
use wm_valid::{Typed, scope_of};
use wm_view::Values;

/// What stands at a cut of a function.
#[derive(Debug, Drop)]
pub struct CutSpot {
    /// The types of the function's locals, the parameters first.
    pub locals: ValTypes,
    /// The types of the operands, those under the blocks round the place included, the lowest first.
    pub kinds: ValTypes,
    /// How many places the function's frame has.
    pub size: u32,
    /// The constants that come next.
    pub constants: Values,
    /// The opcode of the next instruction behind these, of two bytes for `memory.copy` and `memory.fill`; none at the
    /// end of a sequence.
    pub next: Option<u16>,
    /// For the body and each block round the place, the outermost first, how many instructions are left in its
    /// sequence: with the block that is further inside, and in the innermost one without the constants that come next.
    pub left: U32s,
    /// The type of the call behind which the cut is, if it is behind one.
    pub call: Option<FuncType>,
    /// The division of i64 behind which it is, if it is behind one.
    pub division: Option<BinaryOp>,
}

// Looks for a cut: so many are still to come, this one included, or none where it was passed.
#[derive(Drop)]
struct Searching<'a> {
    alloc: Global,
    module: &'a Module,
    locals: &'a [ValType],
    size: u32,
    spent: u32,
    left: u32,
    found: Option<CutSpot>,
}

impl Visitor for Searching<'_> {
    ghost visit_gives = { λ s v t. IsPassed s.module.now s.locals.now s.size s.spent s.left s.found v t.spent t.left t.found × (t.module.now ≡ s.module.now) × (t.locals.now ≡ s.locals.now) × (t.size ≡ s.size) };

    fn visit(&mut self, stop: Stop<'_>) -> Result<(), Memory> {
        let cost = place_cost(stop);
        if !is_cut(self.spent, stop) {
            self.spent += cost;
            return Ok(());
        }
        self.spent = cost;
        if self.left == 1 {
            self.found = Some(spot_shown(self.alloc, self.module, self.locals, self.size, stop)?);
        }
        self.left = self.left.saturating_sub(1);
        Ok(())
    }
}

// What stands at the cut of this number among those of the function, whose locals have these types and whose frame has
// so many places; none where there are fewer.
fn search(
    alloc: Global,
    m: &Typed,
    func: u32,
    index: u32,
    locals: &[ValType],
    size: u32,
) -> Result<Option<CutSpot>, Memory>
    ensures { IfOk result (λ o. o ≡ chosen m.now locals.now size None (numbered index (function_pieces m.now func))) }
{
    let mut searching = Searching {
        alloc,
        module: m.module(),
        locals,
        size,
        spent: 0,
        left: index,
        found: None,
    };
    walk(alloc, m, func, &mut searching)?;
    Ok(searching.found)
}

/// What stands at the cut of this index of the function of this index; none exactly where there is no such cut. It goes
/// through the body twice.
///
/// # Errors
///
/// `Memory` where there is no room for it.
pub fn cut_spot(alloc: Global, m: &Typed, func: u32, index: u32) -> Result<Option<CutSpot>, Memory>
    ensures { IfOk result (λ o. MatchOption o ((c : Cut) → Contains (function_cuts m.now func) c → c.index ≡ index → ⊥)
        (λ x. IsSpot m.now func index x)) }
{
    let module = m.module();
    let Some(f) = module.funcs.get(func as usize) else {
        return Ok(None);
    };
    let Some(scope) = scope_of(alloc, module, f)? else {
        return Ok(None);
    };
    let locals = scope.locals.as_slice();
    let size = size_over(alloc, m, func, locals)?;
    search(alloc, m, func, index, locals, size)
}
