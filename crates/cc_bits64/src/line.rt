// Lines in short beside those of `cc_bits`.
ghost use Rattle.std.specs.Prelude.{◌≡◌};
ghost use Rattle.cc_line.specs.View.{step_view};
ghost use Rattle.cc_line.specs.Step.{run_act, set_place};

use cc_line::{Act, Step};

/// A place gets a number.
pub(crate) fn puts(place: u32, value: i32) -> Step
    ensures { step_view result ≡ run_act (set_place place value) }
{
    Step::Run(Act::SetPlace { place, value })
}
