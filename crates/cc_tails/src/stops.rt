// The stop at a trap.
ghost use Rattle.std.specs.Prelude.{◌≡◌};
ghost use Rattle.cc_line.specs.View.{step_view};
ghost use Rattle.cc_line.specs.Step.{stop_when};
ghost use Rattle.cc_stops.specs.Stops as spec;

use cc_line::{Check, Cond, Conds, Scratch, Spot, Step};
use mc_cmd::Range;

// The end of the list where a trap is recorded.
pub(crate) fn trap_stop() -> Step
    ensures { step_view result ≡ stop_when spec.has_trapped }
{
    let trap = Spot::Scratch(Scratch::Trap);
    Step::StopWhen(Conds::One(Cond::Holds(Check::InRange(trap, Range::From(1)))))
}
