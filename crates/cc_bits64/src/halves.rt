// Operations that are done on each half by itself, and counts of bits.
ghost use Rattle.std.specs.Prelude.{◌≡◌, ◌||◌, IfOk, suc, true};
ghost use Rattle.wm_ast.specs.declared.operation.NumOp.TheVariants.{I32Clz, I32Ctz};
ghost use Rattle.cc_line.specs.BlockView.{block_items};
ghost use Rattle.cc_line.specs.Item.{join};
ghost use Rattle.cc_line.specs.View.{steps_view};
ghost use Rattle.cc_bits.specs.Operation as words;
ghost use Rattle.cc_bits64.specs.Halves as spec;

use crate::line::puts;
use cc_bits::{keeps, loads, makes, where_in};
use cc_line::{Act, Block, Check, Cond, Conds, Scratch, Slots, Spot, Step, next_place};
use mc_cmd::{Op, Range};
use mc_nbt::Memory;
use std::alloc::Global;
use wm_ast::NumOp;

/// An operation of i32 on the low halves, and then on the high ones.
pub(crate) fn halves(alloc: Global, op: NumOp, place: u32) -> Result<Block, Memory>
    requires { words.is_unary op || words.is_binary op ≡ true }
    ensures { IfOk result (λ b. block_items b ≡ spec.halves_items op place) }
{
    let high = next_place(place)?;
    let other_low = next_place(high)?;
    let other_high = next_place(other_low)?;
    let low_half = on_words(alloc, op, place, other_low)?;
    low_half.join(on_words(alloc, op, high, other_high)?)
}

/// The ones of both halves.
pub(crate) fn ones(alloc: Global, place: u32) -> Result<Block, Memory>
    ensures { IfOk result (λ b. block_items b ≡ spec.popcnt_items place) }
{
    let high = next_place(place)?;
    let low_half = on_words(alloc, NumOp::I32Popcnt, place, place)?;
    let high_half = on_words(alloc, NumOp::I32Popcnt, high, high)?;
    let steps = [makes(Scratch::A, Op::Add, Scratch::B)];
    low_half.join(high_half.join(sum(alloc, place, high, &steps)?)?)
}

/// The leading zeros.
pub(crate) fn leading(alloc: Global, place: u32) -> Result<Block, Memory>
    ensures { IfOk result (λ b. block_items b ≡ spec.zeros_items I32Clz place (suc place) place) }
{
    let high = next_place(place)?;
    zeros(alloc, NumOp::I32Clz, place, high, place)
}

/// The trailing zeros.
pub(crate) fn trailing(alloc: Global, place: u32) -> Result<Block, Memory>
    ensures { IfOk result (λ b. block_items b ≡ spec.zeros_items I32Ctz place place (suc place)) }
{
    let high = next_place(place)?;
    zeros(alloc, NumOp::I32Ctz, place, place, high)
}

// The zeros of the half that decides, which is the first one but where that is 0.
fn zeros(alloc: Global, op: NumOp, place: u32, one: u32, other: u32) -> Result<Block, Memory>
    requires { words.is_unary op || words.is_binary op ≡ true }
    ensures { IfOk result (λ b. block_items b ≡ spec.zeros_items op place one other) }
{
    let high = next_place(place)?;
    let chosen = choice(alloc, place, one, other)?;
    let counted = on_words(alloc, op, place, place)?;
    let more = Act::Increase {
        spot: Spot::Scratch(Scratch::A),
        by: 32,
    };
    let steps = [where_in(Range::One(0), Scratch::B, more)];
    chosen.join(counted.join(sum(alloc, place, high, &steps)?)?)
}

// The half that decides comes to the place, and the first half behind it.
fn choice(alloc: Global, place: u32, one: u32, other: u32) -> Result<Block, Memory>
    ensures { IfOk result (λ b. block_items b ≡ spec.choose_items place one other) }
{
    let high = next_place(place)?;
    let not_zero = Cond::Fails(Check::InRange(Spot::Scratch(Scratch::A), Range::One(0)));
    let decides = Act::Combine {
        to: Spot::Scratch(Scratch::B),
        op: Op::Assign,
        from: Spot::Scratch(Scratch::A),
    };
    let steps = [
        loads(Scratch::A, one),
        loads(Scratch::B, other),
        Step::When(Conds::One(not_zero), decides),
        keeps(place, Scratch::B),
        keeps(high, Scratch::A),
    ];
    Block::of_steps(alloc, &steps)
}

// The two places come to `#a` and `#b`, and after the steps `#a` goes to the first one, and 0 behind it.
fn sum(alloc: Global, place: u32, high: u32, steps: &[Step]) -> Result<Block, Memory>
    requires { high ≡ suc place }
    ensures { IfOk result (λ b. block_items b ≡ spec.sum_items place (steps_view steps.now)) }
{
    let before = Block::of_steps(alloc, &[loads(Scratch::A, place), loads(Scratch::B, high)])?;
    let middle = Block::of_steps(alloc, steps)?;
    let after = Block::of_steps(alloc, &[keeps(place, Scratch::A), puts(high, 0)])?;
    before.join(middle.join(after)?)
}

// An operation of i32 on two places, with its result in the first one.
fn on_words(alloc: Global, op: NumOp, place: u32, other: u32) -> Result<Block, Memory>
    requires { words.is_unary op || words.is_binary op ≡ true }
    ensures { IfOk result (λ b. block_items b ≡ words.op_items op place other place) }
{
    let slots = Slots {
        a: place,
        b: other,
        r: place,
    };
    Ok(cc_bits::emit(alloc, op, slots)?.block)
}
