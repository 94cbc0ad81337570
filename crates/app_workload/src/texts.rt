//! The texts of the lines that tell a workload.

ghost use Rattle.std.specs.Prelude.{◌≡◌, ◌++◌, IfOk, codes};
ghost use Rattle.std.specs.Fmt.{decimal};
ghost use Rattle.cc_line.specs.Routine.{trap_number};
ghost use Rattle.app_words.specs.Lines as report;
ghost use Rattle.app_workload.specs.steps.Reducing.{moved_told};

use mc_nbt::{Memory, Text, Value};
use std::alloc::Global;
use wm_ast::TrapKind;
use wm_reduce::Moved;

// The name of a trap.
fn trap_name(kind: TrapKind) -> &'static str
    ensures { result.now ≡ report.trap_name (trap_number kind) }
{
    match kind {
        TrapKind::Unreachable => "unreachable",
        TrapKind::DivideByZero => "integer divide by zero",
        TrapKind::Overflow => "integer overflow",
        TrapKind::OutOfBounds => "out of bounds memory access",
        TrapKind::UndefinedElement => "undefined element",
        TrapKind::UninitializedElement => "uninitialized element",
        TrapKind::TypeMismatch => "indirect call type mismatch",
        TrapKind::StackExhausted => "call stack exhausted",
    }
}

/// What came of a reduction.
///
/// # Errors
///
/// `Memory` where there is no room for the line.
pub(crate) fn reduced_line(alloc: Global, moved: Moved) -> Result<Text, Memory>
    ensures { IfOk result (λ t. t ≡ report.shown (moved_told moved)) }
{
    match moved {
        Moved::Next => Text::new(alloc, "running\n"),
        Moved::Ended(None) => Text::new(alloc, "done\n"),
        Moved::Ended(Some(Value::I32(n))) => Ok(Text::from(format!(in alloc; "done {n}\n")?)),
        Moved::Ended(Some(Value::I64(n))) => Ok(Text::from(format!(in alloc; "done {n}\n")?)),
        Moved::Trapped(kind) => Ok(Text::from(format!(in alloc; "trap {}\n", trap_name(kind))?)),
    }
}

/// The five lines, of which those of the pack, of the reduction and of the counts are there.
///
/// # Errors
///
/// `Memory` where there is no room for the lines.
pub(crate) fn five_lines(
    alloc: Global,
    bytes: usize,
    functions: usize,
    played: &Text,
    reduction: &Text,
    counts: &Text,
) -> Result<Text, Memory>
    ensures { IfOk result (λ t. t
        ≡ (codes "bytes " ++ report.ended_line (decimal bytes))
        ++ ((codes "functions " ++ report.ended_line (decimal functions))
        ++ ((codes "pack " ++ played.now)
        ++ ((codes "reduction " ++ reduction.now)
        ++ counts.now)))) }
{
    Ok(Text::from(format!(in alloc;
        "bytes {bytes}\nfunctions {functions}\npack {played}reduction {reduction}{counts}"
    )?))
}
