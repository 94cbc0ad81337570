// Leading zeros, trailing zeros, and copies of a sign: steps on `#a`, which becomes the result.
ghost use Rattle.std.specs.Prelude.{◌≡◌, IfOk};
ghost use Rattle.mc_cmd.specs.View.{range_view};
ghost use Rattle.cc_line.specs.View.{scratch_text, step_view, steps_view};
ghost use Rattle.cc_bits.specs.Counting as spec;

use crate::line::{joined, makes, makes_in, sets, where_in};
use cc_line::{Act, Scratch, Spot, Step};
use mc_cmd::{Op, Range};
use mc_nbt::Memory;
use std::alloc::Global;

/// The steps of a sign extension: the rest by `range` is a signed number, whose least negative is `half`.
pub(crate) fn extend(range: i32, half: i32) -> [Step; 3]
    ensures { steps_view result ≡ spec.extend_steps range half }
{
    [
        sets(Scratch::M, range),
        makes(Scratch::A, Op::Remainder, Scratch::M),
        makes_in(
            Range::From(half),
            Scratch::A,
            Scratch::A,
            Op::Subtract,
            Scratch::M,
        ),
    ]
}

/// The steps of the count of leading zeros.
pub(crate) fn clz(alloc: Global) -> Result<Vec<Step>, Memory>
    ensures { IfOk result (λ v. steps_view v.items ≡ spec.clz_steps) }
{
    let last = [
        counts(Range::Both(0, 2147483647), Scratch::A, 1),
        makes(Scratch::A, Op::Assign, Scratch::C),
    ];
    joined(
        alloc,
        &[
            &begin(),
            &lead(16, 65536, 65535),
            &lead(8, 256, 16777215),
            &lead(4, 16, 268435455),
            &lead(2, 4, 1073741823),
            &last,
        ],
    )
}

/// The steps of the count of trailing zeros.
pub(crate) fn ctz(alloc: Global) -> Result<Vec<Step>, Memory>
    ensures { IfOk result (λ v. steps_view v.items ≡ spec.ctz_steps) }
{
    let last = [
        sets(Scratch::M, 2),
        makes(Scratch::A, Op::Remainder, Scratch::M),
        counts(Range::One(0), Scratch::A, 1),
        makes(Scratch::A, Op::Assign, Scratch::C),
    ];
    joined(
        alloc,
        &[
            &begin(),
            &trail(16, 65536),
            &trail(8, 256),
            &trail(4, 16),
            &trail(2, 4),
            &last,
        ],
    )
}

// So many more are counted in `#c`, where a score is in a range.
fn counts(range: Range, score: Scratch, by: u32) -> Step
    ensures { step_view result ≡ spec.counts (range_view range) (scratch_text score) by }
{
    let act = Act::Increase {
        spot: Spot::Scratch(Scratch::C),
        by,
    };
    where_in(range, score, act)
}

// Zero has one more than any other number can have.
fn begin() -> [Step; 2]
    ensures { steps_view result ≡ spec.begin_count }
{
    let one = Act::SetSpot {
        spot: Spot::Scratch(Scratch::C),
        value: 1,
    };
    [
        sets(Scratch::C, 0),
        where_in(Range::One(0), Scratch::A, one),
    ]
}

// A number of at most `most` has `by` leading zeros or more, and goes up by the factor 2^by.
fn lead(by: u32, factor: i32, most: i32) -> [Step; 3]
    ensures { steps_view result ≡ spec.lead by factor most }
{
    let small = Range::Both(0, most);
    [
        sets(Scratch::M, factor),
        counts(small, Scratch::A, by),
        makes_in(small, Scratch::A, Scratch::A, Op::Multiply, Scratch::M),
    ]
}

// A number that the divisor 2^by divides has `by` trailing zeros or more, and goes down by it.
fn trail(by: u32, divisor: i32) -> [Step; 5]
    ensures { steps_view result ≡ spec.trail by divisor }
{
    let none = Range::One(0);
    [
        sets(Scratch::M, divisor),
        makes(Scratch::D, Op::Assign, Scratch::A),
        makes(Scratch::D, Op::Remainder, Scratch::M),
        counts(none, Scratch::D, by),
        makes_in(none, Scratch::D, Scratch::A, Op::Divide, Scratch::M),
    ]
}
