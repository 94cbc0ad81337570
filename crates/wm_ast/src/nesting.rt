ghost use Rattle.std.specs.Prelude.{◌≡◌, min};
ghost use Rattle.wm_ast.specs.View.{code_of, op_of};
ghost use Rattle.wm_ast.specs.Instruction.{code_depth, op_depth};

use crate::{Instr, Instrs};

/// The greatest number of blocks that stand round one place of the body, or 2^32 - 1 where that number
/// is greater. The inside of an empty block is a place.
pub fn depth(body: &Instrs) -> u32
    ensures { result ≡ min (code_depth (code_of body.now)) u32.MAX }
{
    depth_of_all(body.as_slice())
}

#[cycle(nesting)]
fn depth_of_all(body: &[Instr]) -> u32
    ensures { result ≡ min (code_depth (code_of body.now)) u32.MAX }
{
    let mut deepest = 0;
    for instr in body {
        deepest = depth_of(instr).max(deepest);
    }
    deepest
}

#[cycle(nesting)]
fn depth_of(instr: &Instr) -> u32
    ensures { result ≡ min (op_depth (op_of instr.now)) u32.MAX }
{
    match instr {
        Instr::Block { body, .. } => depth_of_all(body.as_slice()).saturating_add(1),
        Instr::Loop { body, .. } => depth_of_all(body.as_slice()).saturating_add(1),
        Instr::If { yes, no, .. } => {
            let first = depth_of_all(yes.as_slice());
            let second = depth_of_all(no.as_slice());
            first.max(second).saturating_add(1)
        }
        _ => 0,
    }
}
