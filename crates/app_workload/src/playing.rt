//! The play of a workload's pack, as far as is waited for.

ghost use Rattle.std.specs.Prelude.{◌≡◌, IfOk, not};
ghost use Rattle.app_words.specs.Report.{answer_of};
ghost use Rattle.app_words.specs.Workload.{CallsMain, is_running, waited};
ghost use Rattle.mc_tick.specs.StateView.{IsResumed, IsTold, resting_state, state_of};
ghost use Rattle.app_workload.specs.steps.Playing.{EndsFrom, IsPlayedOut};

use mc_nbt::Memory;
use mc_tick::{Resting, Resumed, StartRefusal};

/// The budget of each tick.
const BUDGET: u32 = 65_536;

/// How many ticks are waited for at most, each time.
const MOST_TICKS: u32 = 1_000_000;

// Whether a pack rests.
fn rests(state: &Resumed) -> bool
    requires { IsTold state.now }
    ensures { let s = state_of state.now in result ≡ not (is_running (answer_of s.pack s.standing)) }
{
    matches!(state, Resumed::Resting(_))
}

// Ticks as long as the pack runs, at most so many.
fn wait(first: Resumed, most: u32) -> Result<Resumed, Memory>
    requires { IsTold first }
    ensures { let s = state_of first in
        IfOk result (IsResumed (record s { standing = waited s.pack most s.standing })) }
{
    let mut state = first;
    let mut left = most;
    while left > 0 {
        if rests(&state) {
            return Ok(state);
        }
        state = state.tick(BUDGET)?;
        left -= 1;
    }
    Ok(state)
}

// Calls `main`, and waits for it. A call that is refused is left out.
fn call_main(resting: Resting) -> Result<Resumed, Memory>
    ensures { let s = resting_state resting in
        IfOk result (IsPlayedOut s.pack (CallsMain s.pack s.standing)) }
{
    match resting.call(0, &[]) {
        Ok(state) => wait(state, MOST_TICKS),
        Err(StartRefusal::NoExport { state }) => Ok(Resumed::Resting(state)),
        Err(StartRefusal::WrongArgs { state }) => Ok(Resumed::Resting(state)),
        Err(StartRefusal::Dead { state }) => Ok(Resumed::Resting(state)),
        Err(StartRefusal::Memory) => Err(Memory),
    }
}

/// Waits for the pack, then calls `main` where the pack doesn't run any more, and waits for that.
///
/// # Errors
///
/// `Memory` where there is no room for what the pack writes.
pub(crate) fn play_out(booted: Resumed) -> Result<Resumed, Memory>
    requires { IsTold booted }
    ensures { let s = state_of booted in
        IfOk result (IsPlayedOut s.pack (EndsFrom s.pack s.standing)) }
{
    match wait(booted, MOST_TICKS)? {
        Resumed::Working(working) => Ok(Resumed::Working(working)),
        Resumed::Resting(resting) => call_main(resting),
    }
}
