// The whole division by a divisor below 32,768, by four digits to the base 65,536.
ghost use Rattle.std.specs.Prelude.{◌≡◌, IfOk};
ghost use Rattle.cc_line.specs.Item.{steps_items};
ghost use Rattle.cc_line.specs.View.{items_view, spot_view, steps_view};
ghost use Rattle.cc_div64.specs.Division as spec;

use crate::line::{
    CHOICE, DIVIDEND_HIGH, DIVIDEND_LOW, DIVISOR_LOW, LEFT, REMAINDER_LOW, combine, helper, set,
};
use cc_line::{Item, Scratch, Spot, Step, push_steps};
use mc_cmd::Op;
use mc_nbt::Memory;
use std::alloc::Global;

const BASE: Spot = Spot::Scratch(Scratch::H);

// The items of the helper: the high word's digits divided, and then the low word's behind the remainder.
pub(crate) fn small(alloc: Global) -> Result<Vec<Item>, Memory>
    ensures { IfOk result (λ v. items_view v.items ≡ steps_items spec.small_steps) }
{
    let mut items = helper(alloc, &[set(LEFT, 0), set(BASE, 65_536)])?;
    push_steps(&upper_digit(DIVIDEND_HIGH), &mut items)?;
    push_steps(&divide_word(DIVIDEND_HIGH), &mut items)?;
    push_steps(&upper_digit(DIVIDEND_LOW), &mut items)?;
    push_steps(&behind_remainder(), &mut items)?;
    push_steps(&divide_word(DIVIDEND_LOW), &mut items)?;
    Ok(items)
}

// The upper digit of a word.
fn upper_digit(word: Spot) -> [Step; 3]
    ensures { steps_view result ≡ spec.upper_digit (spot_view word) }
{
    [
        combine(CHOICE, Op::Assign, word),
        combine(CHOICE, Op::Divide, BASE),
        combine(CHOICE, Op::Remainder, BASE),
    ]
}

// The remainder so far above it.
fn behind_remainder() -> [Step; 2]
    ensures { steps_view result ≡ spec.behind_remainder }
{
    [
        combine(REMAINDER_LOW, Op::Multiply, BASE),
        combine(CHOICE, Op::Add, REMAINDER_LOW),
    ]
}

// Both digits of a word divided, the upper one standing in the choice's score.
fn divide_word(word: Spot) -> [Step; 11]
    ensures { steps_view result ≡ spec.divide_word (spot_view word) }
{
    [
        combine(REMAINDER_LOW, Op::Assign, CHOICE),
        combine(REMAINDER_LOW, Op::Remainder, DIVISOR_LOW),
        combine(CHOICE, Op::Divide, DIVISOR_LOW),
        combine(CHOICE, Op::Multiply, BASE),
        combine(word, Op::Remainder, BASE),
        combine(REMAINDER_LOW, Op::Multiply, BASE),
        combine(word, Op::Add, REMAINDER_LOW),
        combine(REMAINDER_LOW, Op::Assign, word),
        combine(REMAINDER_LOW, Op::Remainder, DIVISOR_LOW),
        combine(word, Op::Divide, DIVISOR_LOW),
        combine(word, Op::Add, CHOICE),
    ]
}
