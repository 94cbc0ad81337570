// The instructions of the workload, and their bytes.
ghost use Rattle.std.specs.Prelude.{◌≡◌, ◌∷◌, ◌++◌, [], OnOk, map};
ghost use Rattle.wm_ast.specs.View.{code_from};
ghost use Rattle.wm_gen.specs.Shortest.{code_bytes, op_bytes, signed, unsigned};
ghost use Rattle.wm_gen.specs.Workload.{counted};
ghost use Rattle.wm_gen.specs.steps.Instruction.{op_of};

use crate::number::{push_signed, push_unsigned};
use mc_nbt::Memory;

// An instruction of the workload that has no body. A constant isn't below 0.
#[derive(Clone, Copy)]
pub(crate) enum Simple {
    I32(u32),
    I64(u64),
    LocalGet(u32),
    LocalSet(u32),
    LocalTee(u32),
    BrIf(u32),
    Call(u32),
    // `i32.store` of a word, at this offset.
    Store(u32),
    // `i64.load32_u` of a word, at this offset.
    Load(u32),
    I32Mul,
    I32Sub,
    I64Add,
    I64DivU,
    I64RemU,
    I64Xor,
    I64ExtendI32U,
}

// Adds an opcode and an index.
fn push_indexed(bytes: &mut Vec<u8>, opcode: u8, index: u32) -> Result<(), Memory>
    ensures { OnOk result (bytes.new.items ≡ bytes.old.items ++ opcode ∷ unsigned index) }
{
    bytes.push(opcode)?;
    push_unsigned(bytes, u64::from(index))
}

// Adds an opcode and a constant.
fn push_constant(bytes: &mut Vec<u8>, opcode: u8, n: u64) -> Result<(), Memory>
    ensures { OnOk result (bytes.new.items ≡ bytes.old.items ++ opcode ∷ signed n) }
{
    bytes.push(opcode)?;
    push_signed(bytes, n)
}

// Adds an opcode, the alignment of a word, and an offset.
fn push_access(bytes: &mut Vec<u8>, opcode: u8, offset: u32) -> Result<(), Memory>
    ensures { OnOk result (bytes.new.items ≡ bytes.old.items ++ opcode ∷ (unsigned 2 ++ unsigned offset)) }
{
    push_indexed(bytes, opcode, 2)?;
    push_unsigned(bytes, u64::from(offset))
}

fn push_opcode(bytes: &mut Vec<u8>, opcode: u8) -> Result<(), Memory>
    ensures { OnOk result (bytes.new.items ≡ bytes.old.items ++ opcode ∷ []) }
{
    bytes.push(opcode)?;
    Ok(())
}

fn push_one(bytes: &mut Vec<u8>, instruction: Simple) -> Result<(), Memory>
    ensures { OnOk result (bytes.new.items ≡ bytes.old.items ++ op_bytes (op_of instruction)) }
{
    match instruction {
        Simple::I32(n) => push_constant(bytes, 0x41, u64::from(n)),
        Simple::I64(n) => push_constant(bytes, 0x42, n),
        Simple::LocalGet(x) => push_indexed(bytes, 0x20, x),
        Simple::LocalSet(x) => push_indexed(bytes, 0x21, x),
        Simple::LocalTee(x) => push_indexed(bytes, 0x22, x),
        Simple::BrIf(l) => push_indexed(bytes, 0x0D, l),
        Simple::Call(f) => push_indexed(bytes, 0x10, f),
        Simple::Store(offset) => push_access(bytes, 0x36, offset),
        Simple::Load(offset) => push_access(bytes, 0x35, offset),
        Simple::I32Mul => push_opcode(bytes, 0x6C),
        Simple::I32Sub => push_opcode(bytes, 0x6B),
        Simple::I64Add => push_opcode(bytes, 0x7C),
        Simple::I64DivU => push_opcode(bytes, 0x80),
        Simple::I64RemU => push_opcode(bytes, 0x82),
        Simple::I64Xor => push_opcode(bytes, 0x85),
        Simple::I64ExtendI32U => push_opcode(bytes, 0xAD),
    }
}

// Adds instructions.
pub(crate) fn push_all(bytes: &mut Vec<u8>, instructions: &[Simple]) -> Result<(), Memory>
    ensures { OnOk result (bytes.new.items
        ≡ bytes.old.items ++ code_bytes (code_from (map op_of instructions.now))) }
{
    for instruction in instructions {
        push_one(bytes, *instruction)?;
    }
    Ok(())
}

// Adds a loop that local 0 counts down from a number on, and local 1 after it.
pub(crate) fn push_counted(bytes: &mut Vec<u8>, turns: u32, turn: &[Simple]) -> Result<(), Memory>
    ensures { OnOk result (bytes.new.items
        ≡ bytes.old.items ++ code_bytes (code_from (counted turns (map op_of turn.now)))) }
{
    push_all(bytes, &[Simple::I32(turns), Simple::LocalSet(0)])?;
    bytes.extend_from_slice(&[0x03, 0x40])?;
    push_all(bytes, turn)?;
    bytes.push(0x0B)?;
    push_all(bytes, &[Simple::LocalGet(1)])
}
