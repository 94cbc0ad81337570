// Eight turns, each of which finds one bit of the quotient.
ghost use Rattle.std.specs.Prelude.{◌≡◌, IfOk};
ghost use Rattle.cc_line.specs.BlockView.{block_items};
ghost use Rattle.cc_line.specs.Item.{call_item};
ghost use Rattle.cc_line.specs.View.{item_view, items_view, steps_view};
ghost use Rattle.cc_div64.specs.Division as spec;
ghost use Rattle.std.specs.Prelude.{codes};

use crate::line::{
    CHOICE, DIVIDEND_HIGH, DIVIDEND_LOW, DIVISOR_HIGH, DIVISOR_LOW, LEAST, LEFT, ORDER_HIGH,
    ORDER_LOW, REMAINDER_HIGH, REMAINDER_LOW, combine, compare, helper, is_number, less, more,
    negative, set, set_act,
};
use cc_line::{Block, Conds, Item, Scratch, Spot, Step, push_item, push_steps};
use mc_cmd::{Cmp, Op};
use mc_nbt::Memory;
use std::alloc::Global;

const BELOW: Spot = Spot::Scratch(Scratch::X);

const ABOVE: Spot = Spot::Scratch(Scratch::Y);

/// The items of eight turns, which are run again until none is left.
///
/// # Errors
///
/// `Memory` where there is no room for them.
#[tactic(auto, using(crate::proofs::TurnCode::call_pushed,))]
pub fn turns(alloc: Global) -> Result<Block, Memory>
    ensures { IfOk result (λ b. block_items b ≡ spec.turns_items) }
{
    let mut items = Vec::new(alloc);
    for run in 0..8_u32 {
        push_item(turn_call(alloc)?, &mut items)?;
    }
    push_steps(&[Step::Run(less(LEFT))], &mut items)?;
    Block::of(items)
}

fn turn_call(alloc: Global) -> Result<Item, Memory>
    ensures { IfOk result (λ x. item_view x ≡ call_item (codes "h_cc_div_turn") spec.turn) }
{
    Ok(Item::call("h_cc_div_turn", turn(alloc)?))
}

fn turn(alloc: Global) -> Result<Vec<Item>, Memory>
    ensures { IfOk result (λ v. items_view v.items ≡ spec.turn) }
{
    let mut items = helper(alloc, &double())?;
    let taken = helper(alloc, &take())?;
    push_item(
        Item::call_when(Conds::One(is_number(CHOICE, 1)), "h_cc_div_take", taken),
        &mut items,
    )?;
    Ok(items)
}

// The remainder and the dividend doubled as one number, and whether the divisor is in the remainder then.
fn double() -> [Step; 15]
    ensures { steps_view result ≡ spec.double }
{
    let chosen = set_act(CHOICE, 1);
    [
        set(CHOICE, 0),
        Step::When(Conds::One(negative(REMAINDER_HIGH)), chosen),
        combine(REMAINDER_HIGH, Op::Add, REMAINDER_HIGH),
        Step::When(Conds::One(negative(REMAINDER_LOW)), more(REMAINDER_HIGH)),
        combine(REMAINDER_LOW, Op::Add, REMAINDER_LOW),
        Step::When(Conds::One(negative(DIVIDEND_HIGH)), more(REMAINDER_LOW)),
        combine(DIVIDEND_HIGH, Op::Add, DIVIDEND_HIGH),
        Step::When(Conds::One(negative(DIVIDEND_LOW)), more(DIVIDEND_HIGH)),
        combine(DIVIDEND_LOW, Op::Add, DIVIDEND_LOW),
        combine(BELOW, Op::Assign, REMAINDER_LOW),
        combine(BELOW, Op::Add, LEAST),
        combine(ABOVE, Op::Assign, REMAINDER_HIGH),
        combine(ABOVE, Op::Add, LEAST),
        Step::When(Conds::One(compare(ABOVE, Cmp::Greater, ORDER_HIGH)), chosen),
        Step::When(
            Conds::Two(
                compare(ABOVE, Cmp::Equal, ORDER_HIGH),
                compare(BELOW, Cmp::GreaterEqual, ORDER_LOW),
            ),
            chosen,
        ),
    ]
}

// The divisor taken from the remainder, and the quotient's bit set.
fn take() -> [Step; 4]
    ensures { steps_view result ≡ spec.take_steps }
{
    [
        Step::When(
            Conds::One(compare(BELOW, Cmp::Less, ORDER_LOW)),
            less(REMAINDER_HIGH),
        ),
        combine(REMAINDER_LOW, Op::Subtract, DIVISOR_LOW),
        combine(REMAINDER_HIGH, Op::Subtract, DIVISOR_HIGH),
        Step::Run(more(DIVIDEND_LOW)),
    ]
}
