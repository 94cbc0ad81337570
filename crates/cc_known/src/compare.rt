// Comparisons without sign of the number in `#a` with a constant.
ghost use Rattle.std.specs.Prelude.{◌≡◌, ◌<◌, codes};
ghost use Rattle.cc_line.specs.Place.{scratch};
ghost use Rattle.cc_line.specs.View.{check_view, cond_view, steps_view};
ghost use Rattle.cc_i32.specs.Light.{truth};
ghost use Rattle.cc_known.specs.Compare as spec;

use cc_bits::{makes, sets};
use cc_line::{Act, Check, Cond, Conds, Scratch, Spot, Step};
use mc_cmd::{Op, Range};

// The ints from 0 to below a number, which is from 1 to 2^31.
fn low_range(number: u32) -> Check
    requires low { 0 < number }
    requires high { number < 2147483649 }
    ensures { check_view result ≡ spec.low_range number }
{
    Check::InRange(
        Spot::Scratch(Scratch::A),
        Range::Both(0, (number - 1).cast_signed()),
    )
}

// Those from a number up, which is above 2^31.
fn high_range(number: u32) -> Check
    ensures { check_view result ≡ spec.high_range number }
{
    Check::InRange(
        Spot::Scratch(Scratch::A),
        Range::Both(number.cast_signed(), -1),
    )
}

// `#a` is below a number, or it isn't.
fn below(number: u32) -> Cond
    requires { 0 < number }
    ensures { cond_view result ≡ spec.below_cond number }
{
    if number <= 0x8000_0000 {
        Cond::Holds(low_range(number))
    } else {
        Cond::Fails(high_range(number))
    }
}

fn not_below(number: u32) -> Cond
    requires { 0 < number }
    ensures { cond_view result ≡ spec.not_below_cond number }
{
    if number <= 0x8000_0000 {
        Cond::Fails(low_range(number))
    } else {
        Cond::Holds(high_range(number))
    }
}

// Whether a condition holds.
fn truth_of(cond: Cond) -> [Step; 3]
    ensures { steps_view result ≡ truth (cond_view cond) (scratch (codes "#a")) }
{
    let one = Act::SetSpot {
        spot: Spot::Scratch(Scratch::C),
        value: 1,
    };
    [
        sets(Scratch::C, 0),
        Step::When(Conds::One(cond), one),
        makes(Scratch::A, Op::Assign, Scratch::C),
    ]
}

/// Whether `#a` without sign is below a number.
pub(crate) fn is_below(number: u32) -> [Step; 3]
    requires { 0 < number }
    ensures { steps_view result ≡ spec.below_steps number }
{
    truth_of(below(number))
}

/// Whether it isn't.
pub(crate) fn is_not_below(number: u32) -> [Step; 3]
    requires { 0 < number }
    ensures { steps_view result ≡ spec.not_below_steps number }
{
    truth_of(not_below(number))
}
