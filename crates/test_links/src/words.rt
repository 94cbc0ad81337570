//! The words for what comes of a row.

use mc_nbt::Value;
use std::alloc::Global;
use test_lines::Stop;
use wm_ast::TrapKind;
use wm_match::MatchFault;
use wm_reduce::Moved;

/// Why modules aren't linked.
pub fn fault_text(alloc: Global, fault: MatchFault) -> Result<String, Stop> {
    match fault {
        MatchFault::Memory => Err(Stop::Memory),
        fault => Ok(format!(in alloc; "{fault}")?),
    }
}

fn trap_name(trap: TrapKind) -> &'static str {
    match trap {
        TrapKind::Unreachable => "unreachable",
        TrapKind::DivideByZero => "integer divide by zero",
        TrapKind::Overflow => "integer overflow",
        TrapKind::OutOfBounds => "out of bounds memory access",
        TrapKind::UndefinedElement => "undefined element",
        TrapKind::UninitializedElement => "uninitialized element",
        TrapKind::TypeMismatch => "indirect call type mismatch",
        TrapKind::StackExhausted => "call stack exhausted",
    }
}

/// How a call ended, if it did.
pub fn moved_text(alloc: Global, moved: Moved) -> Result<String, Stop> {
    Ok(match moved {
        Moved::Next => format!(in alloc; "running")?,
        Moved::Ended(None) => format!(in alloc; "done")?,
        Moved::Ended(Some(Value::I32(value))) => format!(in alloc; "done {value}")?,
        Moved::Ended(Some(Value::I64(value))) => format!(in alloc; "done {value}")?,
        Moved::Trapped(trap) => {
            let name = trap_name(trap);
            format!(in alloc; "trap {name}")?
        }
    })
}
