//! A call of a joined module.

use crate::words::moved_text;
use mc_nbt::Value;
use std::alloc::Global;
use test_lines::Stop;
use wm_reduce::{Moved, Reduction};
use wm_valid::Typed;

/// The most steps of a start function, and of a call.
const STEPS: u32 = 1_000_000;

/// How the reduction ends; `Next` where it goes on for more steps.
fn ending(reduction: &mut Reduction<'_>) -> Result<Moved, Stop> {
    for _ in 0..STEPS {
        match reduction.step()? {
            Moved::Next => {}
            moved => return Ok(moved),
        }
    }
    Ok(Moved::Next)
}

/// How a call of the first function export ends, behind the start function where there is one.
pub fn played_text(alloc: Global, typed: &Typed, argument: i32) -> Result<String, Stop> {
    let mut reduction = Reduction::start(alloc, typed)?;
    ending(&mut reduction)?;
    match reduction.call(0, &[Value::I32(argument)]) {
        Ok(()) => moved_text(alloc, ending(&mut reduction)?),
        Err(_) => Err(Stop::Line),
    }
}
