// The lines of the operations on the halves of numbers of 64 bits.
ghost use Rattle.std.specs.Prelude.{◌≡◌, codes};
ghost use Rattle.mc_cmd.specs.View.{cmp_view, op_view};
ghost use Rattle.cc_line.specs.Place.{scratch};
ghost use Rattle.cc_line.specs.View.{cond_view, conds_view, spot_view, step_view, steps_view};
ghost use Rattle.cc_i64.specs.Pairs as spec;

use cc_line::{Act, Check, Cond, Conds, Scratch, Spot, Step};
use mc_cmd::{Cmp, Op, Range};

const A: Spot = Spot::Scratch(Scratch::A);

const B: Spot = Spot::Scratch(Scratch::B);

const E: Spot = Spot::Scratch(Scratch::E);

const F: Spot = Spot::Scratch(Scratch::F);

const G: Spot = Spot::Scratch(Scratch::G);

const H: Spot = Spot::Scratch(Scratch::H);

// The spots of two numbers, each its low half and its high one.
#[derive(Clone, Copy, Debug)]
pub(crate) struct Halves {
    pub(crate) al: Spot,
    pub(crate) ah: Spot,
    pub(crate) bl: Spot,
    pub(crate) bh: Spot,
}

// The sum.
pub(crate) fn sum(x: Halves) -> [Step; 7]
    ensures { steps_view result ≡ spec.sum (spot_view x.al) (spot_view x.ah) (spot_view x.bl) (spot_view x.bh) }
{
    let carry = Act::Increase { spot: x.ah, by: 1 };
    [
        combine(x.al, Op::Add, x.bl),
        combine(x.ah, Op::Add, x.bh),
        set(E, i32::MIN),
        combine(F, Op::Assign, x.bl),
        combine(F, Op::Add, E),
        combine(E, Op::Add, x.al),
        Step::When(Conds::One(compare(E, Cmp::Less, F)), carry),
    ]
}

// The difference.
pub(crate) fn difference(x: Halves) -> [Step; 7]
    ensures { steps_view result ≡ spec.difference (spot_view x.al) (spot_view x.ah) (spot_view x.bl) (spot_view x.bh) }
{
    let borrow = Act::Decrease { spot: x.ah, by: 1 };
    [
        set(E, i32::MIN),
        combine(F, Op::Assign, x.bl),
        combine(F, Op::Add, E),
        combine(E, Op::Add, x.al),
        Step::When(Conds::One(compare(E, Cmp::Less, F)), borrow),
        combine(x.al, Op::Subtract, x.bl),
        combine(x.ah, Op::Subtract, x.bh),
    ]
}

// The one number where both are the same, else the other.
pub(crate) fn agree(x: Halves, same: i32, other: i32) -> [Step; 3]
    ensures { steps_view result
        ≡ spec.agree same other (spot_view x.al) (spot_view x.ah) (spot_view x.bl) (spot_view x.bh) }
{
    let both = Conds::Two(
        compare(x.al, Cmp::Equal, x.bl),
        compare(x.ah, Cmp::Equal, x.bh),
    );
    [
        set(F, other),
        Step::When(
            both,
            Act::SetSpot {
                spot: F,
                value: same,
            },
        ),
        combine(x.al, Op::Assign, F),
    ]
}

// Whether they compare so with their signs: the high halves, or the low ones where the high ones are the same.
pub(crate) fn signed_order(x: Halves, high: Cmp, low: Cmp) -> [Step; 7]
    ensures { steps_view result ≡ spec.signed_order (cmp_view high) (cmp_view low)
        (spot_view x.al) (spot_view x.ah) (spot_view x.bl) (spot_view x.bh) }
{
    let one = Act::SetSpot { spot: F, value: 1 };
    [
        set(E, i32::MIN),
        combine(x.al, Op::Add, E),
        combine(E, Op::Add, x.bl),
        set(F, 0),
        Step::When(Conds::One(compare(x.ah, high, x.bh)), one),
        Step::When(same_high(x, compare(x.al, low, E)), one),
        combine(x.al, Op::Assign, F),
    ]
}

// Whether they compare so without sign.
pub(crate) fn unsigned_order(x: Halves, high: Cmp, low: Cmp) -> [Step; 11]
    ensures { steps_view result ≡ spec.unsigned_order (cmp_view high) (cmp_view low)
        (spot_view x.al) (spot_view x.ah) (spot_view x.bl) (spot_view x.bh) }
{
    let one = Act::SetSpot { spot: F, value: 1 };
    [
        set(E, i32::MIN),
        combine(G, Op::Assign, x.ah),
        combine(G, Op::Add, E),
        combine(H, Op::Assign, x.bh),
        combine(H, Op::Add, E),
        combine(x.al, Op::Add, E),
        combine(E, Op::Add, x.bl),
        set(F, 0),
        Step::When(Conds::One(compare(G, high, H)), one),
        Step::When(same_high(x, compare(x.al, low, E)), one),
        combine(x.al, Op::Assign, F),
    ]
}

fn same_high(x: Halves, low: Cond) -> Conds
    ensures { conds_view result ≡ spec.same_high (spot_view x.ah) (spot_view x.bh) (cond_view low) }
{
    Conds::Two(compare(x.ah, Cmp::Equal, x.bh), low)
}

// Whether both halves of one number, in `#a` and `#b`, are 0.
pub(crate) fn both_zero() -> [Step; 3]
    ensures { steps_view result ≡ spec.both_zero (scratch (codes "#a")) (scratch (codes "#b")) }
{
    let no = Act::SetSpot { spot: A, value: -1 };
    [
        Step::When(
            Conds::One(Cond::Fails(Check::InRange(A, Range::One(0)))),
            no,
        ),
        Step::When(
            Conds::One(Cond::Fails(Check::InRange(B, Range::One(0)))),
            no,
        ),
        Step::Run(Act::Increase { spot: A, by: 1 }),
    ]
}

// The rest of the number in `#a` by a power of 2, as a signed one.
pub(crate) fn signed_part(power: i32, half: i32) -> [Step; 3]
    ensures { steps_view result ≡ spec.signed_part power half (scratch (codes "#a")) }
{
    let less = Act::Combine {
        to: A,
        op: Op::Subtract,
        from: E,
    };
    let upper = Cond::Holds(Check::InRange(A, Range::From(half)));
    [
        set(E, power),
        combine(A, Op::Remainder, E),
        Step::When(Conds::One(upper), less),
    ]
}

// ---- single lines

fn combine(to: Spot, op: Op, from: Spot) -> Step
    ensures { step_view result ≡ spec.combines (spot_view to) (op_view op) (spot_view from) }
{
    Step::Run(Act::Combine { to, op, from })
}

fn set(spot: Spot, value: i32) -> Step
    ensures { step_view result ≡ spec.sets (spot_view spot) value }
{
    Step::Run(Act::SetSpot { spot, value })
}

fn compare(spot: Spot, cmp: Cmp, other: Spot) -> Cond
    ensures { cond_view result ≡ spec.so (spot_view spot) (cmp_view cmp) (spot_view other) }
{
    Cond::Holds(Check::Compare(spot, cmp, other))
}
