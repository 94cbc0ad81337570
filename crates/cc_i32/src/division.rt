// The items of the four divisions.
ghost use Rattle.std.specs.Prelude.{◌≡◌, [], ◌∷◌, IfOk, OnOk, codes, pos};
ghost use Rattle.mc_cmd.specs.Command.{greater_equal};
ghost use Rattle.mc_cmd.specs.View.{op_view};
ghost use Rattle.cc_line.specs.BlockView.{block_items};
ghost use Rattle.cc_line.specs.Item.{call_when, first, join, no_more, step_item, steps_items};
ghost use Rattle.cc_line.specs.Key.{score_trap};
ghost use Rattle.cc_line.specs.Place.{scratch};
ghost use Rattle.cc_line.specs.Step.{compare, holds, keep_place, load_place, run_act, set_spot, stop_when, when};
ghost use Rattle.cc_line.specs.Step as step;
ghost use Rattle.cc_line.specs.View.{cond_view, conds_view, item_view, items_view, scratch_text, spot_view, step_view};
ghost use Rattle.cc_line.specs.View.{steps_view};
ghost use Rattle.cc_i32.specs.Division as spec;

use cc_line::{Act, Block, Check, Cond, Conds, Item, Scratch, Slots, Spot, Step, push_steps};
use mc_cmd::{Cmp, Op, Range};
use mc_nbt::Memory;
use std::alloc::Global;
use wm_ast::TrapKind;

const DIVIDEND: Spot = Spot::Scratch(Scratch::A);

const DIVISOR: Spot = Spot::Scratch(Scratch::B);

const C: Spot = Spot::Scratch(Scratch::C);

const D: Spot = Spot::Scratch(Scratch::D);

// The signed quotient.
pub(crate) fn div_s(alloc: Global, s: Slots) -> Result<Block, Memory>
    ensures { IfOk result (λ b. block_items b ≡ spec.div_s s.a s.b s.r) }
{
    let mut items = load(alloc, s)?;
    push_steps(&trap_by_zero(), &mut items)?;
    push_steps(&trap_too_great(), &mut items)?;
    push_steps(&signed_quotient(), &mut items)?;
    keep(s.r, Scratch::C, items)
}

// The signed rest.
pub(crate) fn rem_s(alloc: Global, s: Slots) -> Result<Block, Memory>
    ensures { IfOk result (λ b. block_items b ≡ spec.rem_s s.a s.b s.r) }
{
    let mut items = load(alloc, s)?;
    push_steps(&trap_by_zero(), &mut items)?;
    push_steps(&signed_rest(), &mut items)?;
    keep(s.r, Scratch::C, items)
}

// The quotient without sign.
pub(crate) fn div_u(alloc: Global, s: Slots) -> Result<Block, Memory>
    ensures { IfOk result (λ b. block_items b ≡ spec.div_u s.a s.b s.r) }
{
    let mut items = load(alloc, s)?;
    push_steps(&trap_by_zero(), &mut items)?;
    push_steps(&plain_quotient(), &mut items)?;
    let high = helper(alloc, &high_quotient())?;
    push_call("h_cc_i32_div_high", high, &mut items)?;
    keep(s.r, Scratch::D, items)
}

// The rest without sign.
pub(crate) fn rem_u(alloc: Global, s: Slots) -> Result<Block, Memory>
    ensures { IfOk result (λ b. block_items b ≡ spec.rem_u s.a s.b s.r) }
{
    let mut items = load(alloc, s)?;
    push_steps(&trap_by_zero(), &mut items)?;
    push_steps(&plain_rest(), &mut items)?;
    let high = helper(alloc, &high_rest())?;
    push_call("h_cc_i32_rem_high", high, &mut items)?;
    keep(s.r, Scratch::D, items)
}

// ---- from places and back, and helpers

fn load(alloc: Global, s: Slots) -> Result<Vec<Item>, Memory>
    ensures { IfOk result (λ v. items_view v.items
        ≡ steps_items (run_act (load_place (codes "#a") s.a) ∷ (run_act (load_place (codes "#b") s.b) ∷ []))) }
{
    let steps = [
        Step::Run(Act::LoadPlace {
            to: Scratch::A,
            place: s.a,
        }),
        Step::Run(Act::LoadPlace {
            to: Scratch::B,
            place: s.b,
        }),
    ];
    helper(alloc, &steps)
}

fn keep(place: u32, from: Scratch, mut items: Vec<Item>) -> Result<Block, Memory>
    ensures { IfOk result (λ b. block_items b
        ≡ join (items_view items.items) (first (step_item (run_act (keep_place place (scratch_text from)))) no_more)) }
{
    push_steps(&[Step::Run(Act::KeepPlace { place, from })], &mut items)?;
    Block::of(items)
}

// Steps as items.
fn helper(alloc: Global, steps: &[Step]) -> Result<Vec<Item>, Memory>
    ensures { IfOk result (λ v. items_view v.items ≡ steps_items (steps_view steps.now)) }
{
    let mut items = Vec::new(alloc);
    push_steps(steps, &mut items)?;
    Ok(items)
}

// Adds the call of a helper for a dividend from 2^31 on and a divisor below.
fn push_call(name: &'static str, called: Vec<Item>, items: &mut Vec<Item>) -> Result<(), Memory>
    ensures { OnOk result (items_view items.new.items
        ≡ join (items_view items.old.items)
        (first (call_when spec.high_by_low name.now (items_view called.items)) no_more)) }
{
    items.push(call(name, called))?;
    Ok(())
}

fn call(name: &'static str, items: Vec<Item>) -> Item
    ensures { item_view result ≡ call_when spec.high_by_low name.now (items_view items.items) }
{
    Item::call_when(high_by_low(), name, items)
}

// ---- conditions and traps

fn negative(spot: Spot) -> Cond
    ensures { cond_view result ≡ spec.negative (spot_view spot) }
{
    Cond::Holds(Check::InRange(spot, Range::To(-1)))
}

fn natural(spot: Spot) -> Cond
    ensures { cond_view result ≡ spec.natural (spot_view spot) }
{
    Cond::Holds(Check::InRange(spot, Range::From(0)))
}

fn positive(spot: Spot) -> Cond
    ensures { cond_view result ≡ spec.positive (spot_view spot) }
{
    Cond::Holds(Check::InRange(spot, Range::From(1)))
}

fn trap_by_zero() -> [Step; 2]
    ensures { steps_view result
        ≡ when spec.by_zero (set_spot (scratch score_trap) (pos 2)) ∷ (stop_when spec.by_zero ∷ []) }
{
    trap(
        Conds::One(Cond::Holds(Check::InRange(DIVISOR, Range::One(0)))),
        2,
    )
}

fn trap_too_great() -> [Step; 2]
    ensures { steps_view result
        ≡ when spec.too_great (set_spot (scratch score_trap) (pos 3)) ∷ (stop_when spec.too_great ∷ []) }
{
    let least = Cond::Holds(Check::InRange(DIVIDEND, Range::One(i32::MIN)));
    let minus_one = Cond::Holds(Check::InRange(DIVISOR, Range::One(-1)));
    trap(Conds::Two(least, minus_one), 3)
}

fn trap(conds: Conds, number: i32) -> [Step; 2]
    ensures { steps_view result
        ≡ when (conds_view conds) (set_spot (scratch score_trap) number) ∷ (stop_when (conds_view conds) ∷ []) }
{
    [
        Step::When(
            conds,
            Act::SetSpot {
                spot: Spot::Scratch(Scratch::Trap),
                value: number,
            },
        ),
        Step::StopWhen(conds),
    ]
}

// ---- lines

fn combine(to: Spot, op: Op, from: Spot) -> Step
    ensures { step_view result ≡ run_act (step.combine (spot_view to) (op_view op) (spot_view from)) }
{
    Step::Run(Act::Combine { to, op, from })
}

fn set(spot: Spot, value: i32) -> Step
    ensures { step_view result ≡ run_act (set_spot (spot_view spot) value) }
{
    Step::Run(Act::SetSpot { spot, value })
}

fn signed_quotient() -> [Step; 6]
    ensures { steps_view result ≡ spec.signed_quotient }
{
    let one_more = Act::Increase { spot: C, by: 1 };
    [
        combine(C, Op::Assign, DIVIDEND),
        combine(C, Op::Divide, DIVISOR),
        combine(D, Op::Assign, DIVIDEND),
        combine(D, Op::Remainder, DIVISOR),
        Step::When(Conds::Two(negative(DIVIDEND), positive(D)), one_more),
        Step::When(Conds::Two(positive(DIVIDEND), negative(D)), one_more),
    ]
}

fn signed_rest() -> [Step; 4]
    ensures { steps_view result ≡ spec.signed_rest }
{
    let less = Act::Combine {
        to: C,
        op: Op::Subtract,
        from: DIVISOR,
    };
    [
        combine(C, Op::Assign, DIVIDEND),
        combine(C, Op::Remainder, DIVISOR),
        Step::When(Conds::Two(negative(DIVIDEND), positive(C)), less),
        Step::When(Conds::Two(natural(DIVIDEND), negative(C)), less),
    ]
}

fn plain_quotient() -> [Step; 4]
    ensures { steps_view result ≡ spec.plain_quotient }
{
    let both_low = Conds::Two(natural(DIVISOR), natural(DIVIDEND));
    let quotient = Act::Combine {
        to: D,
        op: Op::Divide,
        from: DIVISOR,
    };
    let dividend = Act::Combine {
        to: D,
        op: Op::Assign,
        from: DIVIDEND,
    };
    [
        set(D, 0),
        Step::When(holds_once(), Act::SetSpot { spot: D, value: 1 }),
        Step::When(both_low, dividend),
        Step::When(both_low, quotient),
    ]
}

fn plain_rest() -> [Step; 3]
    ensures { steps_view result ≡ spec.plain_rest }
{
    let both_low = Conds::Two(natural(DIVISOR), natural(DIVIDEND));
    let less = Act::Combine {
        to: D,
        op: Op::Subtract,
        from: DIVISOR,
    };
    let rest = Act::Combine {
        to: D,
        op: Op::Remainder,
        from: DIVISOR,
    };
    [
        combine(D, Op::Assign, DIVIDEND),
        Step::When(holds_once(), less),
        Step::When(both_low, rest),
    ]
}

fn holds_once() -> Conds
    ensures { conds_view result ≡ spec.holds_once }
{
    Conds::Two(negative(DIVIDEND), is_at_least(DIVIDEND))
}

fn is_at_least(spot: Spot) -> Cond
    ensures { cond_view result ≡ holds (compare (spot_view spot) greater_equal spec.divisor) }
{
    Cond::Holds(Check::Compare(spot, Cmp::GreaterEqual, DIVISOR))
}

fn high_by_low() -> Conds
    ensures { conds_view result ≡ spec.high_by_low }
{
    Conds::Two(natural(DIVISOR), negative(DIVIDEND))
}

fn high_quotient() -> [Step; 13]
    ensures { steps_view result ≡ spec.high_quotient }
{
    let one_more = Act::Increase { spot: C, by: 1 };
    [
        combine(C, Op::Assign, DIVIDEND),
        set(D, 2),
        combine(C, Op::Divide, D),
        set(D, i32::MIN),
        combine(C, Op::Subtract, D),
        combine(C, Op::Divide, DIVISOR),
        combine(C, Op::Add, C),
        combine(D, Op::Assign, C),
        combine(D, Op::Multiply, DIVISOR),
        combine(DIVIDEND, Op::Subtract, D),
        Step::When(Conds::One(negative(DIVIDEND)), one_more),
        Step::When(Conds::One(is_at_least(DIVIDEND)), one_more),
        combine(D, Op::Assign, C),
    ]
}

fn high_rest() -> [Step; 12]
    ensures { steps_view result ≡ spec.high_rest }
{
    let less = Act::Combine {
        to: D,
        op: Op::Subtract,
        from: DIVISOR,
    };
    [
        combine(C, Op::Assign, DIVIDEND),
        set(D, 2),
        combine(C, Op::Divide, D),
        set(D, i32::MIN),
        combine(C, Op::Subtract, D),
        combine(C, Op::Divide, DIVISOR),
        combine(C, Op::Add, C),
        combine(C, Op::Multiply, DIVISOR),
        combine(D, Op::Assign, DIVIDEND),
        combine(D, Op::Subtract, C),
        Step::When(Conds::One(negative(D)), less),
        Step::When(Conds::One(is_at_least(D)), less),
    ]
}
