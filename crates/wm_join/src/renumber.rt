// Instructions of one module with the numbers of the joined module.
ghost use Rattle.std.specs.Prelude.{◌≡◌, IfOk};
ghost use Rattle.wm_ast.specs.View.{code_of, op_of};
ghost use Rattle.wm_join.specs.Renumbered.{renumbered, renumbered_op};
ghost use Rattle.wm_join.specs.steps.Numbers.{renumbering_of};

use crate::numbers::Numbers;
use mc_nbt::Memory;
use std::alloc::Global;
use wm_ast::{Instr, Instrs, Items};

/// The instructions with these numbers.
#[cycle(renumber)]
pub(crate) fn renumber(alloc: Global, numbers: &Numbers, body: &[Instr]) -> Result<Instrs, Memory>
    ensures { IfOk result (λ is. code_of is ≡ renumbered (renumbering_of numbers.now) (code_of body.now)) }
{
    let mut found = Vec::new(alloc);
    for instr in body {
        found.push(renumber_instr(alloc, numbers, instr)?)?;
    }
    Ok(Items::from_vec(found))
}

#[cycle(renumber)]
fn renumber_instr(alloc: Global, numbers: &Numbers, instr: &Instr) -> Result<Instr, Memory>
    ensures { IfOk result (λ i. op_of i ≡ renumbered_op (renumbering_of numbers.now) (op_of instr.now)) }
{
    match instr {
        Instr::Block { ty, body } => Ok(Instr::Block {
            ty: *ty,
            body: renumber(alloc, numbers, body.as_slice())?,
        }),
        Instr::Loop { ty, body } => Ok(Instr::Loop {
            ty: *ty,
            body: renumber(alloc, numbers, body.as_slice())?,
        }),
        Instr::If { ty, yes, no } => Ok(Instr::If {
            ty: *ty,
            yes: renumber(alloc, numbers, yes.as_slice())?,
            no: renumber(alloc, numbers, no.as_slice())?,
        }),
        Instr::Call(f) => Ok(Instr::Call(numbers.functions.number(*f))),
        Instr::CallIndirect(t) => Ok(Instr::CallIndirect(numbers.types.number(*t))),
        Instr::GlobalGet(x) => Ok(Instr::GlobalGet(numbers.globals.number(*x))),
        Instr::GlobalSet(x) => Ok(Instr::GlobalSet(numbers.globals.number(*x))),
        Instr::Unreachable => Ok(Instr::Unreachable),
        Instr::Nop => Ok(Instr::Nop),
        Instr::Br(l) => Ok(Instr::Br(*l)),
        Instr::BrIf(l) => Ok(Instr::BrIf(*l)),
        Instr::BrTable { labels, last } => Ok(Instr::BrTable {
            labels: Items::from_vec(labels.as_slice().to_vec(alloc)?),
            last: *last,
        }),
        Instr::Return => Ok(Instr::Return),
        Instr::DropOne => Ok(Instr::DropOne),
        Instr::Select => Ok(Instr::Select),
        Instr::LocalGet(x) => Ok(Instr::LocalGet(*x)),
        Instr::LocalSet(x) => Ok(Instr::LocalSet(*x)),
        Instr::LocalTee(x) => Ok(Instr::LocalTee(*x)),
        Instr::Load { op, align, offset } => Ok(Instr::Load {
            op: *op,
            align: *align,
            offset: *offset,
        }),
        Instr::Store { op, align, offset } => Ok(Instr::Store {
            op: *op,
            align: *align,
            offset: *offset,
        }),
        Instr::MemorySize => Ok(Instr::MemorySize),
        Instr::MemoryGrow => Ok(Instr::MemoryGrow),
        Instr::MemoryCopy => Ok(Instr::MemoryCopy),
        Instr::MemoryFill => Ok(Instr::MemoryFill),
        Instr::Const(value) => Ok(Instr::Const(*value)),
        Instr::Num(op) => Ok(Instr::Num(*op)),
        Instr::Float(opcode) => Ok(Instr::Float(*opcode)),
        Instr::Mul64 => Ok(Instr::Mul64),
    }
}
