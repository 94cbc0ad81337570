ghost use Rattle.std.specs.Prelude.{◌≡◌, ◌<◌, Some, slice_get, length, IfOk};
ghost use Rattle.wm_ast.specs.declared.module.Func.{Func as Function};
ghost use Rattle.wm_valid.specs.Checked.{AreHeights, IsTyped};
ghost use Rattle.wm_valid.specs.Height.{IsHeight};
ghost use Rattle.wm_valid.specs.Place.{AreKinds};

use crate::place::kinds;
use mc_nbt::Memory;
use std::alloc::Global;
use std::marker::Model;
use wm_ast::{Module, ValTypes};

/// A module that is in the profile and valid, and no function of which is too high. Contracts see it as the module.
#[derive(Debug, Drop)]
pub struct Typed {
    module: Module,
    /// The height of each function.
    heights: Vec<u32>,
}

impl Model for Typed {
    ghost use Rattle.wm_ast.specs.declared.module.Module.{Module};
    ghost use Rattle.std.specs.Prelude.{length};
    ghost use Rattle.wm_valid.specs.Checked.{AreHeights, IsTyped};
    ghost use Rattle.std.specs.Coded.{codes};
    ghost use Rattle.wm_ast.specs.contracts.instruction.Instr as instr;

    ghost Value = { Module };

    ghost coded = { Prim.hlevel (codes, instr.the_row.coded) };

    ghost view = { λ t. t.module };

    ghost invariant = { λ t. IsTyped t.module × AreHeights t.module (length t.module.funcs) t.heights.items };
}

impl Typed {
    /// Keeps a validated module with the heights of its functions.
    pub(crate) fn new(m: Module, heights: Vec<u32>) -> Typed
        requires typed { IsTyped m }
        requires heights { AreHeights m (length m.funcs) heights.items }
        ensures { result ≡ m }
    {
        Typed { module: m, heights }
    }

    /// The module.
    pub fn module(&self) -> &Module
        ensures same { result.now ≡ self.now }
        ensures typed { IsTyped self.now }
    {
        &self.module
    }

    /// The greatest number of operands over which a reached instruction of the function stands, those under enclosing
    /// blocks included. It is at most `MAX_HEIGHT`. There has to be such a function. It takes no memory.
    pub fn height(&self, func: u32) -> u32
        requires { func < length self.now.funcs }
        ensures { (f : Function) → slice_get self.now.funcs func ≡ Some f → IsHeight self.now f result }
    {
        self.heights[func as usize]
    }

    /// The operand types at a place of a function's body, those under enclosing blocks included, the lowest first.
    /// `None` exactly where there is no such function, or it has no such place, or the place isn't reached.
    ///
    /// A place is that of an instruction or of the end of a sequence. It is told by a path: the position of an
    /// instruction in each sequence, after that of an `if` 0 for its first arm or 1 for its second, and last the
    /// position in the innermost sequence.
    ///
    /// # Errors
    ///
    /// `Memory` where there is no room for the operands.
    pub fn kinds(&self, alloc: Global, func: u32, place: &[u32]) -> Result<Option<ValTypes>, Memory>
        ensures { IfOk result (λ found. AreKinds self.now func place.now found) }
    {
        kinds(alloc, &self.module, func, place)
    }
}
