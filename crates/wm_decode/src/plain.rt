// Instructions that are no blocks: section 5.4 of the WebAssembly Core Specification 1.0. Each of these functions takes
// the bytes after the opcode.
ghost use Rattle.std.specs.Prelude.{◌≡◌, ◌≤◌, ◌<◌, ℕ, length, IfOk, option_map};
ghost use Rattle.wm_ast.specs.Code.{Op};
ghost use Rattle.wm_ast.specs.View.{op_of};
ghost use Rattle.wm_decode.specs.steps.Gives.{Gives};
ghost use Rattle.wm_decode.specs.steps.Instruction.{plain_by, index_by, operand_by, access_by, access_at, simple_op, table_at, indirect_at, prefixed_at};

use crate::fault::Fault;
use crate::opcode::{is_float_access, is_float_operation, load_op, num_op, store_op};
use crate::operand::{byte, index, signed32, signed64, skip};
use crate::part::indices;
use mc_nbt::Value;
use std::alloc::Global;
use wm_ast::Instr;

/// The instruction of an opcode that opens no block, and the bytes after it.
#[tactic(auto, unfolding(crate::specs::steps::Instruction::plain_by, crate::specs::steps::Instruction::access_at))]
pub(crate) fn plain(alloc: Global, opcode: u8, bytes: &[u8]) -> Result<(Instr, &[u8]), Fault>
    ensures exact { Gives (λ x. (op_of x.0, x.1.now)) result (plain_by opcode bytes.now) }
    ensures shorter { IfOk result (λ x. length x.1.now ≤ length bytes.now) }
{
    if is_float_operation(opcode) {
        return Ok((Instr::Float(opcode), bytes));
    }
    if is_float_access(opcode) {
        let (_, _, rest) = memory_argument(bytes)?;
        return Ok((Instr::Float(opcode), rest));
    }
    match opcode {
        0x43 => {
            let rest = skip(4, bytes)?;
            Ok((Instr::Float(opcode), rest))
        }
        0x44 => {
            let rest = skip(8, bytes)?;
            Ok((Instr::Float(opcode), rest))
        }
        _ => indexed(alloc, opcode, bytes),
    }
}

// An instruction with one index, or one that `with_operands` reads.
#[tactic(auto, unfolding(crate::specs::steps::Instruction::index_by, crate::specs::steps::Instruction::index_at))]
fn indexed(alloc: Global, opcode: u8, bytes: &[u8]) -> Result<(Instr, &[u8]), Fault>
    ensures exact { Gives (λ x. (op_of x.0, x.1.now)) result (index_by opcode bytes.now) }
    ensures shorter { IfOk result (λ x. length x.1.now ≤ length bytes.now) }
{
    match opcode {
        0x0C => {
            let (label, rest) = index(bytes)?;
            Ok((Instr::Br(label), rest))
        }
        0x0D => {
            let (label, rest) = index(bytes)?;
            Ok((Instr::BrIf(label), rest))
        }
        0x10 => {
            let (func, rest) = index(bytes)?;
            Ok((Instr::Call(func), rest))
        }
        0x20 => {
            let (local, rest) = index(bytes)?;
            Ok((Instr::LocalGet(local), rest))
        }
        0x21 => {
            let (local, rest) = index(bytes)?;
            Ok((Instr::LocalSet(local), rest))
        }
        0x22 => {
            let (local, rest) = index(bytes)?;
            Ok((Instr::LocalTee(local), rest))
        }
        0x23 => {
            let (global, rest) = index(bytes)?;
            Ok((Instr::GlobalGet(global), rest))
        }
        0x24 => {
            let (global, rest) = index(bytes)?;
            Ok((Instr::GlobalSet(global), rest))
        }
        _ => with_operands(alloc, opcode, bytes),
    }
}

// An instruction with other operands, or one that `access` reads.
#[tactic(auto, unfolding(crate::specs::steps::Instruction::operand_by, crate::specs::steps::Instruction::zero_at, crate::specs::steps::Instruction::const32_at, crate::specs::steps::Instruction::const64_at))]
fn with_operands(alloc: Global, opcode: u8, bytes: &[u8]) -> Result<(Instr, &[u8]), Fault>
    ensures exact { Gives (λ x. (op_of x.0, x.1.now)) result (operand_by opcode bytes.now) }
    ensures shorter { IfOk result (λ x. length x.1.now ≤ length bytes.now) }
{
    match opcode {
        0x0E => branch_table(alloc, bytes),
        0x11 => call_indirect(bytes),
        0x3F => {
            let rest = byte(0x00, bytes)?;
            Ok((Instr::MemorySize, rest))
        }
        0x40 => {
            let rest = byte(0x00, bytes)?;
            Ok((Instr::MemoryGrow, rest))
        }
        0x41 => {
            let (number, rest) = signed32(bytes)?;
            Ok((Instr::Const(Value::I32(number)), rest))
        }
        0x42 => {
            let (number, rest) = signed64(bytes)?;
            Ok((Instr::Const(Value::I64(number)), rest))
        }
        0xFC => prefixed(bytes),
        _ => access(opcode, bytes),
    }
}

// `br_table`: labels and a default label.
#[tactic(auto, unfolding(crate::specs::steps::Instruction::table_at))]
fn branch_table(alloc: Global, bytes: &[u8]) -> Result<(Instr, &[u8]), Fault>
    ensures exact { Gives (λ x. (op_of x.0, x.1.now)) result (table_at bytes.now) }
    ensures shorter { IfOk result (λ x. length x.1.now ≤ length bytes.now) }
{
    let (labels, rest) = indices(alloc, bytes)?;
    let (last, rest) = index(rest)?;
    Ok((Instr::BrTable { labels, last }, rest))
}

// `call_indirect`: the index of a type, and that of the table, which is 0.
#[tactic(auto, unfolding(crate::specs::steps::Instruction::indirect_at))]
fn call_indirect(bytes: &[u8]) -> Result<(Instr, &[u8]), Fault>
    ensures exact { Gives (λ x. (op_of x.0, x.1.now)) result (indirect_at bytes.now) }
    ensures shorter { IfOk result (λ x. length x.1.now ≤ length bytes.now) }
{
    let (kind, rest) = index(bytes)?;
    let (table, rest) = index(rest)?;
    if table != 0 {
        return Err(Fault::Malformed);
    }
    Ok((Instr::CallIndirect(kind), rest))
}

// `memory.copy` and `memory.fill`, of edition 2.0 (5.4.6): a number, and a byte 00 for each memory.
#[tactic(auto, unfolding(crate::specs::steps::Instruction::prefixed_at, crate::specs::steps::Instruction::prefixed_by, crate::specs::steps::Instruction::zero_at))]
fn prefixed(bytes: &[u8]) -> Result<(Instr, &[u8]), Fault>
    ensures exact { Gives (λ x. (op_of x.0, x.1.now)) result (prefixed_at bytes.now) }
    ensures shorter { IfOk result (λ x. length x.1.now ≤ length bytes.now) }
{
    let (number, rest) = index(bytes)?;
    match number {
        10 => {
            let rest = byte(0x00, rest)?;
            let rest = byte(0x00, rest)?;
            Ok((Instr::MemoryCopy, rest))
        }
        11 => {
            let rest = byte(0x00, rest)?;
            Ok((Instr::MemoryFill, rest))
        }
        _ => Err(Fault::Malformed),
    }
}

// A load, a store, or an instruction without operands.
#[tactic(auto, unfolding(crate::specs::steps::Instruction::access_by, crate::specs::steps::Instruction::access_at, crate::specs::steps::Instruction::simple_by))]
fn access(opcode: u8, bytes: &[u8]) -> Result<(Instr, &[u8]), Fault>
    ensures exact { Gives (λ x. (op_of x.0, x.1.now)) result (access_by opcode bytes.now) }
    ensures shorter { IfOk result (λ x. length x.1.now ≤ length bytes.now) }
{
    if let Some(op) = load_op(opcode) {
        let (align, offset, rest) = memory_argument(bytes)?;
        return Ok((Instr::Load { op, align, offset }, rest));
    }
    if let Some(op) = store_op(opcode) {
        let (align, offset, rest) = memory_argument(bytes)?;
        return Ok((Instr::Store { op, align, offset }, rest));
    }
    match simple(opcode) {
        Some(instr) => Ok((instr, bytes)),
        None => Err(Fault::Malformed),
    }
}

// An alignment and an offset.
#[tactic(auto, unfolding(crate::specs::steps::Instruction::access_at))]
fn memory_argument(bytes: &[u8]) -> Result<(u32, u32, &[u8]), Fault>
    ensures exact { (make : ℕ → ℕ → Op) → Gives (λ x. (make x.0 x.1, x.2.now)) result (access_at make bytes.now) }
    ensures shorter { IfOk result (λ x. length x.2.now < length bytes.now) }
{
    let (align, rest) = index(bytes)?;
    let (offset, rest) = index(rest)?;
    Ok((align, offset, rest))
}

// An instruction without operands.
#[tactic(auto, unfolding(crate::specs::steps::Instruction::simple_op))]
fn simple(opcode: u8) -> Option<Instr>
    ensures { option_map op_of result ≡ simple_op opcode }
{
    match opcode {
        0x00 => Some(Instr::Unreachable),
        0x01 => Some(Instr::Nop),
        0x0F => Some(Instr::Return),
        0x1A => Some(Instr::DropOne),
        0x1B => Some(Instr::Select),
        0x7E => Some(Instr::Mul64),
        _ => num_op(opcode).map(Instr::Num),
    }
}
