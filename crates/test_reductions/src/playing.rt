//! What comes of a line.

use crate::line::{Range, arguments, asked_range, called};
use mc_nbt::Value;
use std::alloc::Global;
use test_lines::{Stop, cut};
use wm_ast::{Module, Space, TrapKind};
use wm_reduce::{CallFault, Moved, Reduction};

/// The most steps of a call.
const STEPS: u32 = 10_000_000;

/// How a call ended, if it did, and after how many steps.
#[derive(Clone, Copy)]
struct Ending {
    moved: Moved,
    steps: u32,
}

/// The position of the export that a line calls, among the function exports; that behind the last where there is none
/// of this name, or the line is no call.
fn position_of(module: &Module, line: &str) -> u32 {
    let name = called(line).unwrap_or("");
    let mut position = 0u32;
    for export in module.exports.as_slice() {
        if export.space == Space::Func {
            if export.name.as_str() == name {
                return position;
            }
            position = position.saturating_add(1);
        }
    }
    position
}

fn reduce(reduction: &mut Reduction<'_>) -> Result<Ending, Stop> {
    for taken in 0..STEPS {
        let moved = reduction.step()?;
        match moved {
            Moved::Next => {}
            // That the term is values alone is no step more; a trap is one.
            Moved::Ended(_) => return Ok(Ending {
                moved,
                steps: taken,
            }),
            Moved::Trapped(_) => return Ok(Ending {
                moved,
                steps: taken + 1,
            }),
        }
    }
    Ok(Ending {
        moved: Moved::Next,
        steps: STEPS,
    })
}

fn trap_name(trap: TrapKind) -> &'static str {
    match trap {
        TrapKind::Unreachable => "unreachable",
        TrapKind::DivideByZero => "integer divide by zero",
        TrapKind::Overflow => "integer overflow",
        TrapKind::OutOfBounds => "out of bounds memory access",
        TrapKind::UndefinedElement => "undefined element",
        TrapKind::UninitializedElement => "uninitialized element",
        TrapKind::TypeMismatch => "indirect call type mismatch",
        TrapKind::StackExhausted => "call stack exhausted",
    }
}

fn moved_text(alloc: Global, moved: Moved) -> Result<String, Stop> {
    Ok(match moved {
        Moved::Next => format!(in alloc; "running")?,
        Moved::Ended(None) => format!(in alloc; "done")?,
        Moved::Ended(Some(Value::I32(value))) => format!(in alloc; "done {value}")?,
        Moved::Ended(Some(Value::I64(value))) => format!(in alloc; "done {value}")?,
        Moved::Trapped(trap) => {
            let name = trap_name(trap);
            format!(in alloc; "trap {name}")?
        }
    })
}

fn call_text(
    alloc: Global,
    reduction: &mut Reduction<'_>,
    position: u32,
    line: &str,
) -> Result<String, Stop> {
    let Some(values) = arguments(alloc, line)? else {
        return Err(Stop::Line);
    };
    match reduction.call(position, values.as_slice()) {
        Ok(()) => {}
        Err(CallFault::Memory) => return Err(Stop::Memory),
        Err(_) => return Err(Stop::Line),
    }
    let ending = reduce(reduction)?;
    let told = moved_text(alloc, ending.moved)?;
    let steps = ending.steps;
    if cut(line).0 == "count" {
        Ok(format!(in alloc; "{line}: {told} after {steps} steps\n")?)
    } else {
        Ok(format!(in alloc; "{line}: {told}\n")?)
    }
}

fn globals_text(alloc: Global, globals: &[Value]) -> Result<String, Stop> {
    let mut text = String::new(alloc);
    for i in 0..globals.len() {
        let line = match globals[i] {
            Value::I32(value) => format!(in alloc; "global {i} {value}\n")?,
            Value::I64(value) => format!(in alloc; "global {i} {value}\n")?,
        };
        text.push_str(line.as_str())?;
    }
    Ok(text)
}

fn memory_text(alloc: Global, memory: &[u8], range: Range) -> Result<String, Stop> {
    let end = range.address.saturating_add(range.length);
    let Some(bytes) = memory.get(range.address..end) else {
        return Ok(String::from_str(alloc, "outside\n")?);
    };
    let mut text = String::new(alloc);
    for byte in bytes {
        let digits = format!(in alloc; "{byte:02x}")?;
        text.push_str(digits.as_str())?;
    }
    text.push_str("\n")?;
    Ok(text)
}

/// What is printed of a line.
pub fn line_text(
    alloc: Global,
    reduction: &mut Reduction<'_>,
    module: &Module,
    line: &str,
) -> Result<String, Stop> {
    if called(line).is_some() {
        call_text(alloc, reduction, position_of(module, line), line)
    } else if line == "globals" {
        globals_text(alloc, reduction.globals())
    } else if let Some(range) = asked_range(line) {
        memory_text(alloc, reduction.memory(), range)
    } else {
        Err(Stop::Line)
    }
}
