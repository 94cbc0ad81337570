// Scores, conditions and steps of which the pieces are made.
ghost use Rattle.std.specs.Prelude.{◌≡◌, IfOk};
ghost use Rattle.mc_cmd.specs.View.{cmp_view, op_view};
ghost use Rattle.cc_line.specs.Item.{steps_items};
ghost use Rattle.cc_line.specs.Step.{decrease, holds, increase, keep_place, load_place, run_act, set_spot};
ghost use Rattle.cc_line.specs.Step as step;
ghost use Rattle.cc_line.specs.View.{act_view, cond_view, items_view, scratch_text, spot_view, step_view, steps_view};
ghost use Rattle.cc_div64.specs.Division as spec;

use cc_line::{Act, Check, Cond, Conds, Item, Scratch, Spot, Step, push_steps};
use mc_cmd::{Cmp, Op, Range};
use mc_nbt::Memory;
use std::alloc::Global;

pub(crate) const DIVIDEND_LOW: Spot = Spot::Scratch(Scratch::D);

pub(crate) const DIVIDEND_HIGH: Spot = Spot::Scratch(Scratch::E);

pub(crate) const DIVISOR_LOW: Spot = Spot::Scratch(Scratch::M);

pub(crate) const DIVISOR_HIGH: Spot = Spot::Scratch(Scratch::N);

pub(crate) const REMAINDER_LOW: Spot = Spot::Scratch(Scratch::P);

pub(crate) const REMAINDER_HIGH: Spot = Spot::Scratch(Scratch::R);

pub(crate) const ORDER_LOW: Spot = Spot::Scratch(Scratch::U);

pub(crate) const ORDER_HIGH: Spot = Spot::Scratch(Scratch::V);

pub(crate) const LEAST: Spot = Spot::Scratch(Scratch::K);

pub(crate) const SIGN: Spot = Spot::Scratch(Scratch::S);

pub(crate) const LEFT: Spot = Spot::Scratch(Scratch::G);

pub(crate) const CHOICE: Spot = Spot::Scratch(Scratch::C);

const MINUS_ONE: Spot = Spot::Scratch(Scratch::F);

// Steps as items.
pub(crate) fn helper(alloc: Global, steps: &[Step]) -> Result<Vec<Item>, Memory>
    ensures { IfOk result (λ v. items_view v.items ≡ steps_items (steps_view steps.now)) }
{
    let mut items = Vec::new(alloc);
    push_steps(steps, &mut items)?;
    Ok(items)
}

// ---- conditions

pub(crate) fn is_number(spot: Spot, number: i32) -> Cond
    ensures { cond_view result ≡ spec.is_number (spot_view spot) number }
{
    Cond::Holds(Check::InRange(spot, Range::One(number)))
}

pub(crate) fn negative(spot: Spot) -> Cond
    ensures { cond_view result ≡ spec.negative (spot_view spot) }
{
    Cond::Holds(Check::InRange(spot, Range::To(-1)))
}

pub(crate) fn compare(spot: Spot, cmp: Cmp, other: Spot) -> Cond
    ensures { cond_view result ≡ holds (step.compare (spot_view spot) (cmp_view cmp) (spot_view other)) }
{
    Cond::Holds(Check::Compare(spot, cmp, other))
}

// ---- acts and steps

pub(crate) fn set_act(spot: Spot, value: i32) -> Act
    ensures { act_view result ≡ set_spot (spot_view spot) value }
{
    Act::SetSpot { spot, value }
}

pub(crate) fn more(spot: Spot) -> Act
    ensures { act_view result ≡ increase (spot_view spot) 1 }
{
    Act::Increase { spot, by: 1 }
}

pub(crate) fn less(spot: Spot) -> Act
    ensures { act_view result ≡ decrease (spot_view spot) 1 }
{
    Act::Decrease { spot, by: 1 }
}

pub(crate) fn set(spot: Spot, value: i32) -> Step
    ensures { step_view result ≡ run_act (set_spot (spot_view spot) value) }
{
    Step::Run(Act::SetSpot { spot, value })
}

pub(crate) fn combine(to: Spot, op: Op, from: Spot) -> Step
    ensures { step_view result ≡ run_act (step.combine (spot_view to) (op_view op) (spot_view from)) }
{
    Step::Run(Act::Combine { to, op, from })
}

pub(crate) fn load(to: Scratch, place: u32) -> Step
    ensures { step_view result ≡ run_act (load_place (scratch_text to) place) }
{
    Step::Run(Act::LoadPlace { to, place })
}

pub(crate) fn keep(place: u32, from: Scratch) -> Step
    ensures { step_view result ≡ run_act (keep_place place (scratch_text from)) }
{
    Step::Run(Act::KeepPlace { place, from })
}

// A pair of words negated.
pub(crate) fn minus(low: Spot, high: Spot) -> [Step; 4]
    ensures { steps_view result ≡ spec.minus_steps (spot_view low) (spot_view high) }
{
    [
        set(MINUS_ONE, -1),
        combine(low, Op::Multiply, MINUS_ONE),
        combine(high, Op::Multiply, MINUS_ONE),
        Step::When(
            Conds::One(Cond::Fails(Check::InRange(low, Range::One(0)))),
            less(high),
        ),
    ]
}
