// Divisions of the number in `#a` by a constant.
ghost use Rattle.std.specs.Prelude.{◌≡◌, ◌<◌, IfOk};
ghost use Rattle.cc_line.specs.View.{steps_view};
ghost use Rattle.cc_known.specs.Divide as spec;

use crate::line::rest;
use cc_bits::{makes, sets, where_in};
use cc_line::{Act, Check, Cond, Conds, Scratch, Spot, Step};
use mc_cmd::{Op, Range};
use mc_nbt::Memory;
use std::alloc::Global;

/// The rest by a power of two.
///
/// # Errors
///
/// `Memory` where there is no room for the steps.
pub(crate) fn rem_u(alloc: Global, place: u32) -> Result<Vec<Step>, Memory>
    requires { place < 32 }
    ensures { IfOk result (λ v. steps_view v.items ≡ spec.rem_u_steps place) }
{
    if place == 0 {
        return Ok(Vec::from_slice(alloc, &[sets(Scratch::A, 0)])?);
    }
    Ok(Vec::from_slice(alloc, &rest(place, Scratch::A))?)
}

/// The quotient with sign, by a number above 0.
pub(crate) fn div_s(number: u32) -> [Step; 3]
    requires low { 0 < number }
    requires high { number < 2147483648 }
    ensures { steps_view result ≡ spec.div_s_steps number }
{
    let spot = Spot::Scratch(Scratch::A);
    let by = number - 1;
    [
        sets(Scratch::M, number.cast_signed()),
        where_in(Range::To(-1), Scratch::A, Act::Increase { spot, by }),
        makes(Scratch::A, Op::Divide, Scratch::M),
    ]
}

/// The rest with sign, by a number above 0.
pub(crate) fn rem_s(number: u32) -> [Step; 4]
    requires { number < 2147483648 }
    ensures { steps_view result ≡ spec.rem_s_steps number }
{
    let negative = Check::InRange(Spot::Scratch(Scratch::C), Range::To(-1));
    let left = Check::InRange(Spot::Scratch(Scratch::A), Range::From(1));
    [
        sets(Scratch::M, number.cast_signed()),
        makes(Scratch::C, Op::Assign, Scratch::A),
        makes(Scratch::A, Op::Remainder, Scratch::M),
        Step::When(
            Conds::Two(Cond::Holds(negative), Cond::Holds(left)),
            Act::Combine {
                to: Spot::Scratch(Scratch::A),
                op: Op::Subtract,
                from: Spot::Scratch(Scratch::M),
            },
        ),
    ]
}
