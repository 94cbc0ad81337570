// What is known of a body while its places are emitted.
ghost use Rattle.std.specs.Prelude.{◌≡◌};
ghost use Rattle.wm_ast.specs.Instance.{first_store};

use crate::frame::Shapes;
use cc_cut::CutIndices;
use std::alloc::Global;
use wm_ast::{Module, ValType};

/// A function's body: its module, the table with which the module begins, the shapes of all functions, the function's
/// index, how many results it gives, the size of its frame, the types of its locals, its cuts, and their heights.
#[derive(Clone, Copy)]
pub(crate) struct Body<'a> {
    pub alloc: Global,
    pub module: &'a Module,
    pub table: &'a [Option<u32>],
    pub shapes: &'a Shapes,
    pub func: u32,
    pub results: u32,
    pub size: u32,
    pub locals: &'a [ValType],
    pub indices: &'a CutIndices,
    pub heights: &'a [u32],
    ghost begins: { table.now ≡ (first_store module.now).table },
}
