//! What is told of a workload.

ghost use Rattle.std.specs.Prelude.{◌≤◌, IfOk};

use mc_nbt::Value;
use std::alloc::Global;
use test_lines::{Stop, cut, number};
use wm_decode::decode;
use wm_gen::{MAX_SIZE, generate};
use wm_profile::check;
use wm_reduce::{Moved, Reduction};
use wm_valid::{Typed, validate};

/// The most steps of a call.
const STEPS: u32 = 10_000_000;

fn typed(alloc: Global, bytes: &[u8]) -> Option<Typed> {
    let Ok(module) = decode(alloc, bytes) else {
        return None;
    };
    check(&module).ok()?;
    match validate(alloc, module) {
        Ok(typed) => Some(typed),
        Err(_) => None,
    }
}

/// The value with which the call under reduction ends.
fn value(reduction: &mut Reduction<'_>) -> Result<i64, Stop> {
    for _ in 0..STEPS {
        match reduction.step()? {
            Moved::Next => {}
            Moved::Ended(Some(Value::I64(value))) => return Ok(value),
            _ => return Err(Stop::Line),
        }
    }
    Err(Stop::Line)
}

/// What the first function export gives.
fn given(alloc: Global, typed: &Typed) -> Result<i64, Stop> {
    let mut reduction = Reduction::start(alloc, typed)?;
    match reduction.call(0, &[]) {
        Ok(()) => value(&mut reduction),
        Err(_) => Err(Stop::Line),
    }
}

/// The size that a word spells.
fn size_of(word: &str) -> Result<u32, Stop>
    ensures least { IfOk result (λ size. 1 ≤ size) }
    ensures most { IfOk result (λ size. size ≤ MAX_SIZE) }
{
    match u32::try_from(number(word)?) {
        Ok(size) if size >= 1 && size <= MAX_SIZE => Ok(size),
        _ => Err(Stop::Line),
    }
}

/// The line of the workload of a number and a size: these, how many bytes and functions it has, and what `main` gives.
pub fn row_text(alloc: Global, line: &str) -> Result<String, Stop> {
    let (first, second) = cut(line);
    let number = number(first)?;
    let size = size_of(second)?;
    let bytes = generate(alloc, number, size)?;
    let Some(typed) = typed(alloc, bytes.as_slice()) else {
        return Err(Stop::Line);
    };
    let count = bytes.len();
    let functions = typed.module().funcs.len();
    let value = given(alloc, &typed)?;
    Ok(format!(in alloc; "{number} {size} {count} {functions} {value}\n")?)
}
