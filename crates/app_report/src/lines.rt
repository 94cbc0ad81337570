//! Lines that are no matter of a world, and the line of an answer.

ghost use Rattle.std.specs.Prelude.{◌≡◌, IfOk, option_map, string_bytes};
ghost use Rattle.mc_layout.specs.AnswerView.{answer_view, trap_number};
ghost use Rattle.app_words.specs.Lines as report;

use mc_layout::{Answer, TrapKind};
use mc_nbt::{Memory, Text, Value};
use std::alloc::Global;

// The name of a trap.
fn trap_name(kind: TrapKind) -> &'static str
    ensures { result.now ≡ report.trap_name (trap_number kind) }
{
    match kind {
        TrapKind::Unreachable => "unreachable",
        TrapKind::DivideByZero => "integer divide by zero",
        TrapKind::IntegerOverflow => "integer overflow",
        TrapKind::OutOfBoundsMemory => "out of bounds memory access",
        TrapKind::UndefinedElement => "undefined element",
        TrapKind::UninitializedElement => "uninitialized element",
        TrapKind::CallTypeMismatch => "indirect call type mismatch",
        TrapKind::StackExhausted => "call stack exhausted",
    }
}

// The line of an answer; `None` is one that is not of the layout.
pub(crate) fn shown(alloc: Global, answer: Option<Answer>) -> Result<String, Memory>
    ensures { IfOk result (λ s. string_bytes s ≡ report.shown (option_map answer_view answer)) }
{
    let Some(answer) = answer else {
        return Ok(String::from_str(alloc, "none\n")?);
    };
    match answer {
        Answer::New => Ok(String::from_str(alloc, "new\n")?),
        Answer::Running => Ok(String::from_str(alloc, "running\n")?),
        Answer::Done(None) => Ok(String::from_str(alloc, "done\n")?),
        Answer::Done(Some(Value::I32(n))) => Ok(format!(in alloc; "done {n}\n")?),
        Answer::Done(Some(Value::I64(n))) => Ok(format!(in alloc; "done {n}\n")?),
        Answer::Trap(kind) => Ok(format!(in alloc; "trap {}\n", trap_name(kind))?),
        Answer::Dead(_) => Ok(String::from_str(alloc, "dead\n")?),
    }
}

/// The line that tells that a call was left out, since the pack still runs.
///
/// # Errors
///
/// `Memory` where there is no room for the line.
pub fn busy(alloc: Global) -> Result<Text, Memory>
    ensures { IfOk result (λ t. t ≡ report.busy_line) }
{
    Text::new(alloc, "busy\n")
}

/// The line that a report ends with: the number of ticks, and the weight that all chains used.
///
/// # Errors
///
/// `Memory` where there is no room for the line.
pub fn last_line(alloc: Global, ticks: u128, used: u128) -> Result<Text, Memory>
    ensures { IfOk result (λ t. t ≡ report.last_line ticks used) }
{
    Ok(Text::from(format!(in alloc; "ticks {ticks} commands {used}\n")?))
}
