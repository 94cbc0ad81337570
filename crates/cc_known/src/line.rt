// Lines in short: rests by powers of two, and what follows them.
ghost use Rattle.std.specs.Int.{cast_signed, w32};
ghost use Rattle.std.specs.Prelude.{◌≡◌, ◌<◌, ◌^◌};
ghost use Rattle.cc_line.specs.View.{scratch_text, step_view, steps_view};
ghost use Rattle.cc_known.specs.Mask as spec;

use cc_bits::{makes, makes_in, sets};
use cc_line::{Scratch, Step};
use mc_cmd::{Op, Range};

/// `#m` is a power of two as an int.
pub(crate) fn sets_power(place: u32) -> Step
    requires { place < 32 }
    ensures { step_view result ≡ spec.sets_power place }
{
    sets(Scratch::M, power(place))
}

// A power of two as an int.
fn power(place: u32) -> i32
    requires { place < 32 }
    ensures { result ≡ cast_signed w32 (2 ^ place) }
{
    (1u32 << place).cast_signed()
}

// A score gets its rest by the power that is in `#m`, 2^31 or one below.
fn rest_line(below_sign: bool, of: Scratch) -> Step
    ensures { step_view result ≡ spec.rest_line below_sign (scratch_text of) }
{
    if below_sign {
        makes(of, Op::Remainder, Scratch::M)
    } else {
        makes_in(Range::To(-1), of, of, Op::Subtract, Scratch::M)
    }
}

/// A score gets its rest by a power of two.
pub(crate) fn rest(place: u32, of: Scratch) -> [Step; 2]
    requires { place < 32 }
    ensures { steps_view result ≡ spec.rest_steps place (scratch_text of) }
{
    [sets_power(place), rest_line(place < 31, of)]
}

/// `#a` is `#c` less, or more.
pub(crate) fn change(less: bool) -> Step
    ensures { step_view result ≡ spec.change_line less }
{
    if less {
        makes(Scratch::A, Op::Subtract, Scratch::C)
    } else {
        makes(Scratch::A, Op::Add, Scratch::C)
    }
}
