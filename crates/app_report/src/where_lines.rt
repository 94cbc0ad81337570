//! The lines that tell where a program is.

ghost use Rattle.std.specs.Prelude.{◌≡◌, ◌++◌, IfOk, string_bytes};
ghost use Rattle.app_words.specs.Lines.{no_part};
ghost use Rattle.app_report.specs.Where as spec;

use mc_nbt::{Memory, Text, Value};
use std::alloc::Global;
use wm_view::{FrameView, Inspection};

// The line of a value of a frame.
fn value_line(alloc: Global, what: &str, number: usize, value: Value) -> Result<String, Memory>
    ensures { IfOk result (λ s. string_bytes s ≡ spec.value_line what.now number value) }
{
    match value {
        Value::I32(n) => Ok(format!(in alloc; "{what} {number} {n}\n")?),
        Value::I64(n) => Ok(format!(in alloc; "{what} {number} {n}\n")?),
    }
}

#[tactic(auto, using(crate::proofs::WhereLemmas::values_from))]
fn value_lines(alloc: Global, what: &str, values: &[Value]) -> Result<String, Memory>
    ensures { IfOk result (λ s. string_bytes s ≡ spec.value_lines what.now 0 values.now) }
{
    let mut text = String::new(alloc);
    for (i, value) in values.iter().enumerate() {
        let line = value_line(alloc, what, i, *value)?;
        text.push_str(line.as_str())?;
    }
    Ok(text)
}

fn frame_line(alloc: Global, number: usize, func: u32) -> Result<String, Memory>
    ensures { IfOk result (λ s. string_bytes s ≡ spec.frame_line number func) }
{
    Ok(format!(in alloc; "frame {number} function {func}\n")?)
}

// A frame's function, its locals and its operands.
fn frame_text(alloc: Global, number: usize, frame: &FrameView) -> Result<String, Memory>
    ensures { IfOk result (λ s. string_bytes s ≡ spec.frame_text number frame.now) }
{
    let mut text = frame_line(alloc, number, frame.func)?;
    let locals = value_lines(alloc, "local", frame.locals.as_slice())?;
    text.push_str(locals.as_str())?;
    let operands = value_lines(alloc, "operand", frame.operands.as_slice())?;
    text.push_str(operands.as_str())?;
    Ok(text)
}

#[tactic(auto, using(crate::proofs::WhereLemmas::frames_from))]
fn frame_lines(alloc: Global, frames: &[FrameView]) -> Result<String, Memory>
    ensures { IfOk result (λ s. string_bytes s ≡ spec.frame_lines 0 frames.now) }
{
    let mut text = String::new(alloc);
    for (i, frame) in frames.iter().enumerate() {
        let lines = frame_text(alloc, i, frame)?;
        text.push_str(lines.as_str())?;
    }
    Ok(text)
}

// The line of the next instruction.
#[tactic(auto, using(crate::proofs::WhereLemmas::padded_short, crate::proofs::WhereLemmas::padded_long))]
fn next_line(alloc: Global, next: Option<u16>) -> Result<String, Memory>
    ensures { IfOk result (λ s. string_bytes s ≡ spec.next_line next) }
{
    match next {
        None => Ok(String::from_str(alloc, "next end\n")?),
        Some(code) if code < 256 => Ok(format!(in alloc; "next {code:02x}\n")?),
        Some(code) => Ok(format!(in alloc; "next {code:04x}\n")?),
    }
}

// Numbers, with a space before each.
#[tactic(auto, using(crate::proofs::WhereLemmas::numbers_from))]
fn numbers_text(alloc: Global, numbers: &[u32]) -> Result<String, Memory>
    ensures { IfOk result (λ s. string_bytes s ≡ spec.numbers_text numbers.now) }
{
    let mut text = String::new(alloc);
    for number in numbers {
        let word = format!(in alloc; " {number}")?;
        text.push_str(word.as_str())?;
    }
    Ok(text)
}

// The line of what is left of the sequences round the next instruction.
fn left_line(alloc: Global, left: &[u32]) -> Result<String, Memory>
    ensures { IfOk result (λ s. string_bytes s ≡ spec.left_line left.now) }
{
    let numbers = numbers_text(alloc, left)?;
    Ok(format!(in alloc; "left{numbers}\n")?)
}

// Three texts, one behind the other.
fn with_both(mut text: String, second: &str, third: &str) -> Result<String, Memory>
    ensures { IfOk result (λ s. string_bytes s ≡ string_bytes text ++ (second.now ++ third.now)) }
{
    text.push_str(second)?;
    text.push_str(third)?;
    Ok(text)
}

/// The lines of what a program shows that runs: for each frame `frame J function I`, and for each of its locals and
/// operands `local K V` and `operand K V`; then `next` and the opcode of the next instruction in two or four hex digits,
/// or `end`; then `left` and how much is left of each sequence that the innermost frame is in.
///
/// # Errors
///
/// `Memory` where there is no room for the lines.
pub fn where_text(alloc: Global, shown: &Inspection) -> Result<Text, Memory>
    ensures { IfOk result (λ t. t ≡ spec.where_lines shown.now) }
{
    let frames = frame_lines(alloc, shown.frames.as_slice())?;
    let next = next_line(alloc, shown.next)?;
    let left = left_line(alloc, shown.left.as_slice())?;
    let text = with_both(frames, next.as_str(), left.as_str())?;
    Ok(Text::from(text))
}

/// The line of a program that is being instantiated.
///
/// # Errors
///
/// `Memory` where there is no room for the line.
pub fn start(alloc: Global) -> Result<Text, Memory>
    ensures { IfOk result (λ t. t ≡ spec.start_line) }
{
    Text::new(alloc, "start\n")
}

/// The line of a world that tells no place of a program.
///
/// # Errors
///
/// `Memory` where there is no room for the line.
pub fn none(alloc: Global) -> Result<Text, Memory>
    ensures { IfOk result (λ t. t ≡ no_part) }
{
    Text::new(alloc, "none\n")
}
