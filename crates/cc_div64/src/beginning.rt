// The beginning: the tests for traps, the operands without their signs, and for a small divisor the whole division.
ghost use Rattle.std.specs.Prelude.{◌≡◌, ◌∷◌, [], IfOk, codes, pos, true};
ghost use Rattle.wm_ast.specs.declared.operator.BinaryOp.TheVariants.{DivS, DivU, RemS};
ghost use Rattle.wm_ast.specs.Operator.{divides};
ghost use Rattle.cc_line.specs.BlockView.{block_items};
ghost use Rattle.cc_line.specs.Item.{call_when, join, steps_items};
ghost use Rattle.cc_line.specs.Key.{score_trap};
ghost use Rattle.cc_line.specs.Place.{scratch};
ghost use Rattle.cc_line.specs.Step.{set_spot, stop_when, when};
ghost use Rattle.cc_line.specs.View.{conds_view, item_view, items_view, steps_view};
ghost use Rattle.cc_div64.specs.Division as spec;

use crate::line::{
    CHOICE, DIVIDEND_HIGH, DIVIDEND_LOW, DIVISOR_HIGH, DIVISOR_LOW, LEAST, LEFT, ORDER_HIGH,
    ORDER_LOW, REMAINDER_HIGH, REMAINDER_LOW, SIGN, combine, helper, is_number, load, minus, more,
    negative, set, set_act,
};
use crate::small::small;
use cc_line::{Block, Check, Cond, Conds, Item, Scratch, Spot, Step, push_item, push_steps, sum};
use mc_cmd::{Op, Range};
use mc_nbt::Memory;
use std::alloc::Global;
use wm_ast::BinaryOp;

/// The items of the beginning of a division, of the operands in `place` and the three behind it.
///
/// # Errors
///
/// `Memory` where there is no room for them, or the last place's number is 2^32 or more.
pub fn begin(alloc: Global, op: BinaryOp, place: u32) -> Result<Block, Memory>
    requires { divides op ≡ true }
    ensures { IfOk result (λ b. block_items b ≡ spec.begin_items op place) }
{
    match op {
        BinaryOp::DivS => signed_quotient(alloc, place),
        BinaryOp::RemS => signed_remainder(alloc, place),
        BinaryOp::DivU | BinaryOp::RemU => unsigned(alloc, place),
        _ => unreachable!(),
    }
}

fn signed_quotient(alloc: Global, place: u32) -> Result<Block, Memory>
    ensures { IfOk result (λ b. block_items b ≡ spec.begin_items DivS place) }
{
    let mut items = load_operands(alloc, place)?;
    push_steps(&trap_by_zero(), &mut items)?;
    push_steps(&count_greatest(), &mut items)?;
    push_steps(&trap_too_great(), &mut items)?;
    push_steps(&quotient_sign(), &mut items)?;
    Block::of(items)?
        .join(unsigned_both(alloc)?)?
        .join(prepare(alloc)?)
}

fn signed_remainder(alloc: Global, place: u32) -> Result<Block, Memory>
    ensures { IfOk result (λ b. block_items b ≡ spec.begin_items RemS place) }
{
    let mut items = load_operands(alloc, place)?;
    push_steps(&trap_by_zero(), &mut items)?;
    push_steps(&remainder_sign(), &mut items)?;
    Block::of(items)?
        .join(unsigned_both(alloc)?)?
        .join(prepare(alloc)?)
}

fn unsigned(alloc: Global, place: u32) -> Result<Block, Memory>
    ensures { IfOk result (λ b. block_items b ≡ spec.begin_items DivU place) }
{
    let mut items = load_operands(alloc, place)?;
    push_steps(&trap_by_zero(), &mut items)?;
    Block::of(items)?.join(prepare(alloc)?)
}

fn load_operands(alloc: Global, place: u32) -> Result<Vec<Item>, Memory>
    ensures { IfOk result (λ v. items_view v.items ≡ steps_items (spec.load_steps place)) }
{
    let second = sum(place, 1)?;
    let third = sum(place, 2)?;
    let fourth = sum(place, 3)?;
    let steps = [
        load(Scratch::D, place),
        load(Scratch::E, second),
        load(Scratch::M, third),
        load(Scratch::N, fourth),
    ];
    helper(alloc, &steps)
}

// ---- traps

fn trap_by_zero() -> [Step; 2]
    ensures { steps_view result
        ≡ when spec.by_zero (set_spot (scratch score_trap) (pos 2)) ∷ (stop_when spec.by_zero ∷ []) }
{
    trap(
        Conds::Two(is_number(DIVISOR_LOW, 0), is_number(DIVISOR_HIGH, 0)),
        2,
    )
}

fn trap_too_great() -> [Step; 2]
    ensures { steps_view result
        ≡ when spec.too_great (set_spot (scratch score_trap) (pos 3)) ∷ (stop_when spec.too_great ∷ []) }
{
    trap(Conds::One(is_number(CHOICE, 2)), 3)
}

fn trap(conds: Conds, number: i32) -> [Step; 2]
    ensures { steps_view result
        ≡ when (conds_view conds) (set_spot (scratch score_trap) number) ∷ (stop_when (conds_view conds) ∷ []) }
{
    [
        Step::When(conds, set_act(Spot::Scratch(Scratch::Trap), number)),
        Step::StopWhen(conds),
    ]
}

// Whether the divisor is -1, and besides whether the dividend is the least number.
fn count_greatest() -> [Step; 3]
    ensures { steps_view result ≡ spec.count_greatest }
{
    let is_minus_one = Conds::Two(is_number(DIVISOR_LOW, -1), is_number(DIVISOR_HIGH, -1));
    let is_least = Conds::Two(
        is_number(DIVIDEND_LOW, 0),
        is_number(DIVIDEND_HIGH, i32::MIN),
    );
    [
        set(CHOICE, 0),
        Step::When(is_minus_one, set_act(CHOICE, 1)),
        Step::When(is_least, more(CHOICE)),
    ]
}

// ---- signs

fn remainder_sign() -> [Step; 2]
    ensures { steps_view result ≡ spec.remainder_sign }
{
    [
        set(SIGN, 0),
        Step::When(Conds::One(negative(DIVIDEND_HIGH)), set_act(SIGN, 1)),
    ]
}

fn quotient_sign() -> [Step; 3]
    ensures { steps_view result ≡ spec.quotient_sign }
{
    [
        set(SIGN, 0),
        Step::When(Conds::One(negative(DIVIDEND_HIGH)), set_act(SIGN, 1)),
        Step::When(Conds::One(negative(DIVISOR_HIGH)), more(SIGN)),
    ]
}

// The calls that take both signs away.
fn unsigned_both(alloc: Global) -> Result<Block, Memory>
    ensures { IfOk result (λ b. block_items b ≡ join (spec.minus_dividend (spec.negative spec.dividend_high ∷ []))
        (spec.minus_divisor (spec.negative spec.divisor_high ∷ []))) }
{
    let mut items = Vec::new(alloc);
    push_item(minus_dividend(alloc)?, &mut items)?;
    push_item(minus_divisor(alloc)?, &mut items)?;
    Block::of(items)
}

fn minus_dividend(alloc: Global) -> Result<Item, Memory>
    ensures { IfOk result (λ x. item_view x ≡ call_when (spec.negative spec.dividend_high ∷ []) (codes "h_cc_div_minus")
        (steps_items (spec.minus_steps spec.dividend_low spec.dividend_high))) }
{
    let called = helper(alloc, &minus(DIVIDEND_LOW, DIVIDEND_HIGH))?;
    Ok(Item::call_when(
        Conds::One(negative(DIVIDEND_HIGH)),
        "h_cc_div_minus",
        called,
    ))
}

fn minus_divisor(alloc: Global) -> Result<Item, Memory>
    ensures { IfOk result (λ x. item_view x ≡ call_when (spec.negative spec.divisor_high ∷ []) (codes "h_cc_div_minus_by")
        (steps_items (spec.minus_steps spec.divisor_low spec.divisor_high))) }
{
    let called = helper(alloc, &minus(DIVISOR_LOW, DIVISOR_HIGH))?;
    Ok(Item::call_when(
        Conds::One(negative(DIVISOR_HIGH)),
        "h_cc_div_minus_by",
        called,
    ))
}

// ---- what the turns need

fn turn_scores() -> [Step; 8]
    ensures { steps_view result ≡ spec.turn_scores }
{
    [
        set(LEAST, i32::MIN),
        combine(ORDER_LOW, Op::Assign, DIVISOR_LOW),
        combine(ORDER_LOW, Op::Add, LEAST),
        combine(ORDER_HIGH, Op::Assign, DIVISOR_HIGH),
        combine(ORDER_HIGH, Op::Add, LEAST),
        set(REMAINDER_LOW, 0),
        set(REMAINDER_HIGH, 0),
        set(LEFT, 8),
    ]
}

fn short() -> [Step; 3]
    ensures { steps_view result ≡ spec.short_steps }
{
    [
        set(LEFT, 4),
        combine(DIVIDEND_HIGH, Op::Assign, DIVIDEND_LOW),
        set(DIVIDEND_LOW, 0),
    ]
}

fn by_small() -> Conds
    ensures { conds_view result ≡ spec.by_small }
{
    let below = Cond::Holds(Check::InRange(DIVISOR_LOW, Range::Both(1, 32_767)));
    Conds::Two(is_number(DIVISOR_HIGH, 0), below)
}

fn of_short() -> Conds
    ensures { conds_view result ≡ spec.of_short }
{
    Conds::Two(is_number(LEFT, 8), is_number(DIVIDEND_HIGH, 0))
}

fn small_call(alloc: Global) -> Result<Item, Memory>
    ensures { IfOk result (λ x. item_view x ≡ call_when spec.by_small (codes "h_cc_div_small")
        (steps_items spec.small_steps)) }
{
    Ok(Item::call_when(by_small(), "h_cc_div_small", small(alloc)?))
}

fn short_call(alloc: Global) -> Result<Item, Memory>
    ensures { IfOk result (λ x. item_view x ≡ call_when spec.of_short (codes "h_cc_div_short")
        (steps_items spec.short_steps)) }
{
    let called = helper(alloc, &short())?;
    Ok(Item::call_when(of_short(), "h_cc_div_short", called))
}

fn prepare(alloc: Global) -> Result<Block, Memory>
    ensures { IfOk result (λ b. block_items b ≡ spec.prepare) }
{
    let mut items = helper(alloc, &turn_scores())?;
    push_item(small_call(alloc)?, &mut items)?;
    push_item(short_call(alloc)?, &mut items)?;
    Block::of(items)
}
