// Loads of up to four bytes.
ghost use Rattle.std.specs.Prelude.{◌≡◌, ◌≤◌, IfOk};
ghost use Rattle.mc_cmd.specs.View.{op_view};
ghost use Rattle.cc_line.specs.BlockView.{block_items};
ghost use Rattle.cc_line.specs.View.{items_view, open_steps_view, stem_text, step_view, steps_view};
ghost use Rattle.cc_mem.specs.Load as spec;

use crate::address::{address, stop};
use crate::line::{is_in, loads, makes, makes_by, scale_of, scales, still, window_word};
use crate::word::{both_words, is_last, is_unaligned, push_by_byte, push_next_word, push_word};
use cc_line::{Act, Block, Item, OpenStep, Scratch, Spot, Stem, Step, push_item, push_steps};
use mc_cmd::{Op, Range};
use mc_nbt::Memory;
use std::alloc::Global;
use wm_ast::LoadOp;

/// The items of a load: of the address in a place, with an offset, into a place. `sure` says that the memory has a page in
/// any case. Those of a load of an i64 are none but the address's.
///
/// # Errors
///
/// `Memory` where there is no room for them.
pub fn load(
    alloc: Global,
    sure: bool,
    op: LoadOp,
    place: u32,
    offset: u32,
    to: u32,
) -> Result<Block, Memory>
    ensures { IfOk result (λ b. block_items b ≡ spec.load_items sure op place offset to) }
{
    let found = address(alloc, sure, place, offset)?;
    let keep = Step::Run(Act::KeepPlace {
        place: to,
        from: Scratch::U,
    });
    let mut items = access(alloc, op)?;
    push_steps(&[stop(), keep], &mut items)?;
    found.join(Block::of(items)?)
}

// The number at the address comes to `#u`.
fn access(alloc: Global, op: LoadOp) -> Result<Vec<Item>, Memory>
    ensures { IfOk result (λ xs. items_view xs.items ≡ spec.access_items op) }
{
    match op {
        LoadOp::I32Load => load32(alloc),
        LoadOp::I32Load8S => load8_signed(alloc),
        LoadOp::I32Load8U => load8_unsigned(alloc),
        LoadOp::I32Load16S => load16_signed(alloc),
        LoadOp::I32Load16U => load16_unsigned(alloc),
        _ => Ok(Vec::new(alloc)),
    }
}

// ---- four bytes

fn load32(alloc: Global) -> Result<Vec<Item>, Memory>
    ensures { IfOk result (λ xs. items_view xs.items ≡ spec.load32_items) }
{
    let glued = glued_items(alloc)?;
    let mut items = Vec::new(alloc);
    push_word(alloc, &mut items)?;
    push_item(
        Item::call_when(is_unaligned(), "h_mem_load32", glued),
        &mut items,
    )?;
    Ok(items)
}

// What stands from the byte on, with the lowest bytes of the next word.
fn glued_items(alloc: Global) -> Result<Vec<Item>, Memory>
    ensures { IfOk result (λ xs. items_view xs.items ≡ spec.glued_items) }
{
    let mut items = Vec::new(alloc);
    push_next_word(alloc, &mut items)?;
    push_by_byte(alloc, "h_mem_glue", &glue(), &mut items)?;
    Ok(items)
}

fn glue() -> [OpenStep; 4]
    ensures { open_steps_view result ≡ spec.glue_steps }
{
    [
        makes_by(Scratch::U, Op::Divide, Stem::Byte),
        makes_by(Scratch::U, Op::Remainder, Stem::Rest),
        makes_by(Scratch::D, Op::Multiply, Stem::Rest),
        still(makes(Scratch::U, Op::Add, Scratch::D)),
    ]
}

// ---- within a word

// A part of the word: what an operation by the byte's scale leaves, and then one by that of a number of bytes.
fn part(op: Op, from: Stem, last: Op, bytes: u32) -> [OpenStep; 3]
    requires { bytes ≤ 3 }
    ensures { open_steps_view result ≡ spec.part_steps (op_view op) (stem_text from) (op_view last) bytes }
{
    [
        loads(Scratch::U, window_word()),
        makes_by(Scratch::U, op, from),
        still(scales(Scratch::U, last, bytes)),
    ]
}

fn load8_unsigned(alloc: Global) -> Result<Vec<Item>, Memory>
    ensures { IfOk result (λ xs. items_view xs.items ≡ spec.load8u_items) }
{
    let byte = part(Op::Divide, Stem::Byte, Op::Remainder, 1);
    let mut items = Vec::new(alloc);
    push_by_byte(alloc, "h_mem_byte_u", &byte, &mut items)?;
    Ok(items)
}

fn load8_signed(alloc: Global) -> Result<Vec<Item>, Memory>
    ensures { IfOk result (λ xs. items_view xs.items ≡ spec.load8s_items) }
{
    let byte = part(Op::Multiply, Stem::Top, Op::Divide, 3);
    let mut items = Vec::new(alloc);
    push_by_byte(alloc, "h_mem_byte_s", &byte, &mut items)?;
    Ok(items)
}

// ---- two bytes

fn load16_unsigned(alloc: Global) -> Result<Vec<Item>, Memory>
    ensures { IfOk result (λ xs. items_view xs.items ≡ spec.load16u_items) }
{
    let over = half_over(alloc)?;
    let half = part(Op::Divide, Stem::Byte, Op::Remainder, 2);
    let mut items = Vec::new(alloc);
    push_by_byte(alloc, "h_mem_half_u", &half, &mut items)?;
    push_item(
        Item::call_when(is_last(), "h_mem_load16u", over),
        &mut items,
    )?;
    Ok(items)
}

// For the last byte there is no scale, and the word stays.
fn load16_signed(alloc: Global) -> Result<Vec<Item>, Memory>
    ensures { IfOk result (λ xs. items_view xs.items ≡ spec.load16s_items) }
{
    let mut over = half_over(alloc)?;
    push_steps(&[sign()], &mut over)?;
    let half = part(Op::Multiply, Stem::Half, Op::Divide, 2);
    let mut items = Vec::new(alloc);
    push_by_byte(alloc, "h_mem_half_s", &half, &mut items)?;
    push_item(
        Item::call_when(is_last(), "h_mem_load16s", over),
        &mut items,
    )?;
    Ok(items)
}

// From the last byte of a word on: that byte, and the first one of the next word.
fn half_over(alloc: Global) -> Result<Vec<Item>, Memory>
    ensures { IfOk result (λ xs. items_view xs.items ≡ spec.half_over_items) }
{
    let mut items = both_words(alloc)?;
    push_steps(&pair_steps(), &mut items)?;
    Ok(items)
}

fn pair_steps() -> [Step; 5]
    ensures { steps_view result ≡ spec.pair_steps }
{
    [
        scales(Scratch::U, Op::Divide, 3),
        scales(Scratch::U, Op::Remainder, 1),
        scales(Scratch::D, Op::Remainder, 1),
        scales(Scratch::D, Op::Multiply, 1),
        makes(Scratch::U, Op::Add, Scratch::D),
    ]
}

// Two bytes from 32768 on have a sign.
fn sign() -> Step
    ensures { step_view result ≡ spec.sign_step }
{
    let act = Act::Combine {
        to: Spot::Scratch(Scratch::U),
        op: Op::Subtract,
        from: scale_of(2),
    };
    Step::When(is_in(Scratch::U, Range::From(32_768)), act)
}
