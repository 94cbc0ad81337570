//! The reduction of a module's `main`, as far as is waited for.

ghost use Rattle.std.specs.Prelude.{◌≡◌, IfOk, Some, option_map};
ghost use Rattle.wm_reduce.specs.Shown.{shown};
ghost use Rattle.app_workload.specs.Reduced.{HasMain, reduced as reduction_of, told_of};
ghost use Rattle.app_workload.specs.steps.Reducing.{IsReducing, comes_to, moved_told};

use mc_nbt::Memory;
use std::alloc::Global;
use wm_reduce::{CallFault, Moved, Reduction};
use wm_valid::Typed;

/// How many steps are waited for at most.
const MOST_STEPS: u32 = 100_000_000;

// How the term under reduction ends within so many steps; `Next` where it doesn't.
fn end(reduction: &mut Reduction<'_>, most: u32) -> Result<Moved, Memory>
    requires { IsReducing (shown reduction.old) }
    ensures { IfOk result (λ moved. option_map told_of (comes_to (shown reduction.old) most) ≡ Some (moved_told moved)) }
{
    let mut left = most;
    while left > 0 {
        match reduction.step()? {
            Moved::Next => {}
            moved => return Ok(moved),
        }
        left -= 1;
    }
    // Values alone are an end already: the step that tells it is none of the reduction.
    match reduction.step()? {
        Moved::Ended(value) => Ok(Moved::Ended(value)),
        _ => Ok(Moved::Next),
    }
}

/// How the reduction of a module's `main` ends within the steps that are waited for; `Next` where it doesn't.
///
/// # Errors
///
/// `Memory` where there is no room for the reduction.
pub(crate) fn reduced(alloc: Global, typed: &Typed) -> Result<Moved, Memory>
    requires { HasMain typed.now }
    ensures { IfOk result (λ moved. moved_told moved ≡ reduction_of typed.now) }
{
    let mut reduction = Reduction::start(alloc, typed)?;
    match reduction.call(0, &[]) {
        Ok(()) => end(&mut reduction, MOST_STEPS),
        Err(CallFault::Memory) => Err(Memory),
        Err(_) => unreachable!(),
    }
}
