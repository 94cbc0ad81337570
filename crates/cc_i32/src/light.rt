// The lines of the light operations on the scratch scores `#a` and `#b`. The result is left in `#a`.
ghost use Rattle.std.specs.Prelude.{◌≡◌, [], ◌∷◌, codes};
ghost use Rattle.mc_cmd.specs.View.{cmp_view, op_view};
ghost use Rattle.cc_line.specs.Place.{scratch};
ghost use Rattle.cc_line.specs.Step.{combine, run_act};
ghost use Rattle.cc_line.specs.View.{cond_view, steps_view};
ghost use Rattle.cc_i32.specs.Light as spec;

use cc_line::{Act, Check, Cond, Conds, Scratch, Spot, Step};
use mc_cmd::{Cmp, Op, Range};

const A: Spot = Spot::Scratch(Scratch::A);

const B: Spot = Spot::Scratch(Scratch::B);

const C: Spot = Spot::Scratch(Scratch::C);

const D: Spot = Spot::Scratch(Scratch::D);

// What an operation of the scoreboard makes of the two.
pub(crate) fn arithmetic(op: Op) -> [Step; 1]
    ensures { steps_view result ≡ run_act (combine (scratch (codes "#a")) (op_view op) (scratch (codes "#b"))) ∷ [] }
{
    [Step::Run(Act::Combine { to: A, op, from: B })]
}

// Whether the one is 0: any other number becomes -1, and then each becomes one more.
pub(crate) fn is_zero() -> [Step; 2]
    ensures { steps_view result ≡ spec.is_zero (scratch (codes "#a")) }
{
    [
        Step::When(
            Conds::One(Cond::Fails(Check::InRange(A, Range::One(0)))),
            Act::SetSpot { spot: A, value: -1 },
        ),
        Step::Run(Act::Increase { spot: A, by: 1 }),
    ]
}

// Whether a condition holds.
fn truth(cond: Cond) -> [Step; 3]
    ensures { steps_view result ≡ spec.truth (cond_view cond) (scratch (codes "#a")) }
{
    [
        Step::Run(Act::SetSpot { spot: C, value: 0 }),
        Step::When(Conds::One(cond), Act::SetSpot { spot: C, value: 1 }),
        Step::Run(Act::Combine {
            to: A,
            op: Op::Assign,
            from: C,
        }),
    ]
}

// Whether the two compare so, with their signs.
pub(crate) fn compares(cmp: Cmp) -> [Step; 3]
    ensures { steps_view result ≡ spec.compares (cmp_view cmp) (scratch (codes "#a")) (scratch (codes "#b")) }
{
    truth(Cond::Holds(Check::Compare(A, cmp, B)))
}

// Whether the two differ.
pub(crate) fn differ() -> [Step; 3]
    ensures { steps_view result ≡ spec.differ (scratch (codes "#a")) (scratch (codes "#b")) }
{
    truth(Cond::Fails(Check::Compare(A, Cmp::Equal, B)))
}

// Whether the two compare so without sign: with the least number added, they do with their signs.
pub(crate) fn compares_unsigned(cmp: Cmp) -> [Step; 6]
    ensures { steps_view result ≡ spec.compares_unsigned (cmp_view cmp) (scratch (codes "#a")) (scratch (codes "#b")) }
{
    [
        Step::Run(Act::SetSpot {
            spot: D,
            value: i32::MIN,
        }),
        Step::Run(Act::Combine {
            to: A,
            op: Op::Add,
            from: D,
        }),
        Step::Run(Act::Combine {
            to: D,
            op: Op::Add,
            from: B,
        }),
        Step::Run(Act::SetSpot { spot: C, value: 0 }),
        Step::When(
            Conds::One(Cond::Holds(Check::Compare(A, cmp, D))),
            Act::SetSpot { spot: C, value: 1 },
        ),
        Step::Run(Act::Combine {
            to: A,
            op: Op::Assign,
            from: C,
        }),
    ]
}
