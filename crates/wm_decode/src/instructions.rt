// Instructions and expressions: section 5.4 of the WebAssembly Core Specification 1.0.
ghost use Rattle.std.specs.Prelude.{◌<◌, ◌≤◌, ℕ, length, Option, IfOk};
ghost use Rattle.wm_ast.specs.Code.{Op, Code};
ghost use Rattle.wm_ast.specs.View.{op_of, code_of};
ghost use Rattle.wm_ast.specs.declared.module.ValType.{ValType as Kind};
ghost use Rattle.wm_decode.specs.steps.Gives.{Gives};
ghost use Rattle.wm_decode.specs.steps.Instruction.{nested_at, choice_at, op_at, op_by, inner, code_at, expr_at};

use crate::fault::Fault;
use crate::operand::{block_type, byte};
use crate::plain::plain;
use std::alloc::Global;
use wm_ast::{Instr, Instrs, Items, MAX_DEPTH, ValType};

// The opcodes that end a sequence of instructions.
const END: u8 = 0x0B;

const ELSE: u8 = 0x05;

/// The expression at the front of the bytes, and the bytes after it. Its blocks nest at most `MAX_DEPTH`
/// deep, and so does the recursion.
///
/// # Errors
///
/// `Malformed` exactly where no front of the bytes is an expression, and `Memory`.
#[tactic(auto, unfolding(crate::specs::steps::Instruction::expr_at))]
pub(crate) fn expr(alloc: Global, bytes: &[u8]) -> Result<(Instrs, &[u8]), Fault>
    ensures exact { Gives (λ x. (code_of x.0, x.1.now)) result (expr_at bytes.now) }
    ensures shorter { IfOk result (λ x. length x.1.now < length bytes.now) }
{
    let (code, rest) = instrs(alloc, bytes, MAX_DEPTH)?;
    let rest = byte(END, rest)?;
    Ok((code, rest))
}

// Instructions up to an `end` or an `else`, which stays. So many blocks may open inside one another.
#[cycle(read)]
fn instrs(alloc: Global, bytes: &[u8], depth: u32) -> Result<(Instrs, &[u8]), Fault>
    ensures exact { (n : ℕ) → length bytes.now < n
        → Gives (λ x. (code_of x.0, x.1.now)) result (code_at n depth bytes.now) }
    ensures shorter { IfOk result (λ x. length x.1.now ≤ length bytes.now) }
{
    let mut found = Vec::new(alloc);
    let mut rest = bytes;
    while let [b, ..] = rest {
        if *b == END || *b == ELSE {
            return Ok((Items::from_vec(found), rest));
        }
        let (i, after) = instr(alloc, rest, depth)?;
        found.push(i)?;
        rest = after;
    }
    Err(Fault::Malformed)
}

// What stands inside one more block.
#[cycle(read)]
fn inside(alloc: Global, bytes: &[u8], depth: u32) -> Result<(Instrs, &[u8]), Fault>
    ensures exact { (n : ℕ) → length bytes.now < n
        → Gives (λ x. (code_of x.0, x.1.now)) result (inner (code_at n) depth bytes.now) }
    ensures shorter { IfOk result (λ x. length x.1.now ≤ length bytes.now) }
{
    if depth == 0 {
        return Err(Fault::Malformed);
    }
    instrs(alloc, bytes, depth - 1)
}

// A block's type and body.
#[cycle(read)]
#[tactic(auto, unfolding(crate::specs::steps::Instruction::nested_at))]
fn block(alloc: Global, bytes: &[u8], depth: u32) -> Result<(Option<ValType>, Instrs, &[u8]), Fault>
    ensures exact { (n : ℕ) (make : Option Kind → Code → Op) → length bytes.now ≤ n
        → Gives (λ x. (make x.0 (code_of x.1), x.2.now)) result (nested_at make (inner (code_at n) depth) bytes.now) }
    ensures shorter { IfOk result (λ x. length x.2.now < length bytes.now) }
{
    let (ty, rest) = block_type(bytes)?;
    let (body, rest) = inside(alloc, rest, depth)?;
    let rest = byte(END, rest)?;
    Ok((ty, body, rest))
}

// Both arms of an `if`.
#[cycle(read)]
#[tactic(auto, unfolding(crate::specs::steps::Instruction::choice_at, crate::specs::steps::Instruction::arms_at))]
fn choice(alloc: Global, bytes: &[u8], depth: u32) -> Result<(Instr, &[u8]), Fault>
    ensures exact { (n : ℕ) → length bytes.now ≤ n
        → Gives (λ x. (op_of x.0, x.1.now)) result (choice_at (inner (code_at n) depth) bytes.now) }
    ensures shorter { IfOk result (λ x. length x.1.now < length bytes.now) }
{
    let (ty, rest) = block_type(bytes)?;
    let (yes, rest) = inside(alloc, rest, depth)?;
    match rest {
        [END, rest @ ..] => Ok((
            Instr::If {
                ty,
                yes,
                no: Items::new(alloc),
            },
            rest,
        )),
        [ELSE, rest @ ..] => {
            let (no, rest) = inside(alloc, rest, depth)?;
            let rest = byte(END, rest)?;
            Ok((Instr::If { ty, yes, no }, rest))
        }
        _ => Err(Fault::Malformed),
    }
}

// The instruction at the front.
#[cycle(read)]
#[tactic(auto, unfolding(crate::specs::steps::Instruction::op_at))]
fn instr(alloc: Global, bytes: &[u8], depth: u32) -> Result<(Instr, &[u8]), Fault>
    ensures exact { (n : ℕ) → length bytes.now ≤ n
        → Gives (λ x. (op_of x.0, x.1.now)) result (op_at (inner (code_at n) depth) bytes.now) }
    ensures shorter { IfOk result (λ x. length x.1.now < length bytes.now) }
{
    match bytes {
        [] => Err(Fault::Malformed),
        [opcode, rest @ ..] => instr_by(alloc, *opcode, rest, depth),
    }
}

// The instruction of an opcode. The bytes are those after it.
#[cycle(read)]
#[tactic(auto, unfolding(crate::specs::steps::Instruction::op_by))]
fn instr_by(alloc: Global, opcode: u8, bytes: &[u8], depth: u32) -> Result<(Instr, &[u8]), Fault>
    ensures exact { (n : ℕ) → length bytes.now ≤ n
        → Gives (λ x. (op_of x.0, x.1.now)) result (op_by (inner (code_at n) depth) opcode bytes.now) }
    ensures shorter { IfOk result (λ x. length x.1.now ≤ length bytes.now) }
{
    match opcode {
        0x02 => {
            let (ty, body, rest) = block(alloc, bytes, depth)?;
            Ok((Instr::Block { ty, body }, rest))
        }
        0x03 => {
            let (ty, body, rest) = block(alloc, bytes, depth)?;
            Ok((Instr::Loop { ty, body }, rest))
        }
        0x04 => choice(alloc, bytes, depth),
        _ => plain(alloc, opcode, bytes),
    }
}
