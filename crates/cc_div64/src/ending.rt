// The end: the quotient or the remainder, with its sign, to the result's places.
ghost use Rattle.std.specs.Prelude.{◌≡◌, IfOk, OnOk, true};
ghost use Rattle.wm_ast.specs.declared.operator.BinaryOp.TheVariants.{DivS, RemS};
ghost use Rattle.wm_ast.specs.Operator.{divides};
ghost use Rattle.cc_line.specs.BlockView.{block_items};
ghost use Rattle.cc_line.specs.Item.{join, steps_items};
ghost use Rattle.cc_line.specs.View.{items_view, scratch_text};
ghost use Rattle.cc_div64.specs.Division as spec;

use crate::line::{
    DIVIDEND_HIGH, DIVIDEND_LOW, REMAINDER_HIGH, REMAINDER_LOW, SIGN, combine, helper, is_number,
    keep, minus,
};
use cc_line::{Block, Conds, Item, Scratch, push_item, push_steps, sum};
use mc_cmd::Op;
use mc_nbt::Memory;
use std::alloc::Global;
use wm_ast::BinaryOp;

/// The items of the end of a division, with the result to `place` and the one behind it.
///
/// # Errors
///
/// `Memory` where there is no room for them, or the second place's number is 2^32 or more.
pub fn end(alloc: Global, op: BinaryOp, place: u32) -> Result<Block, Memory>
    requires { divides op ≡ true }
    ensures { IfOk result (λ b. block_items b ≡ spec.end_items op place) }
{
    match op {
        BinaryOp::DivS => signed_quotient(alloc, place),
        BinaryOp::DivU => kept(place, Scratch::D, Scratch::E, Vec::new(alloc)),
        BinaryOp::RemS => signed_remainder(alloc, place),
        BinaryOp::RemU => kept(place, Scratch::P, Scratch::R, Vec::new(alloc)),
        _ => unreachable!(),
    }
}

fn signed_quotient(alloc: Global, place: u32) -> Result<Block, Memory>
    ensures { IfOk result (λ b. block_items b ≡ spec.end_items DivS place) }
{
    let mut items = Vec::new(alloc);
    push_negated(alloc, &mut items)?;
    kept(place, Scratch::D, Scratch::E, items)
}

fn signed_remainder(alloc: Global, place: u32) -> Result<Block, Memory>
    ensures { IfOk result (λ b. block_items b ≡ spec.end_items RemS place) }
{
    let steps = [
        combine(DIVIDEND_LOW, Op::Assign, REMAINDER_LOW),
        combine(DIVIDEND_HIGH, Op::Assign, REMAINDER_HIGH),
    ];
    let mut items = helper(alloc, &steps)?;
    push_negated(alloc, &mut items)?;
    kept(place, Scratch::D, Scratch::E, items)
}

// Adds the call that negates the quotient where the sign says so.
fn push_negated(alloc: Global, items: &mut Vec<Item>) -> Result<(), Memory>
    ensures { OnOk result (items_view items.new.items ≡ join (items_view items.old.items)
        (spec.minus_dividend spec.is_negated)) }
{
    let called = helper(alloc, &minus(DIVIDEND_LOW, DIVIDEND_HIGH))?;
    push_item(
        Item::call_when(Conds::One(is_number(SIGN, 1)), "h_cc_div_minus", called),
        items,
    )
}

// Items, and behind them two scores to a place and the one behind it.
fn kept(place: u32, low: Scratch, high: Scratch, mut items: Vec<Item>) -> Result<Block, Memory>
    ensures { IfOk result (λ b. block_items b ≡ join (items_view items.items)
        (steps_items (spec.keep_steps place (scratch_text low) (scratch_text high)))) }
{
    let next = sum(place, 1)?;
    push_steps(&[keep(place, low), keep(next, high)], &mut items)?;
    Block::of(items)
}
