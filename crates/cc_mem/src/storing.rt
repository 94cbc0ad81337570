// Stores of up to four bytes. Where an access traps nothing is written: each write asks for that.
ghost use Rattle.std.specs.Prelude.{◌≡◌, ◌≤◌, ◌∷◌, [], IfOk, OnOk};
ghost use Rattle.cc_line.specs.BlockView.{block_items};
ghost use Rattle.cc_line.specs.Item.{fill_when, first, join, no_more};
ghost use Rattle.cc_line.specs.View.{cond_view, items_view, open_step_view, open_steps_view, site_view, steps_view};
ghost use Rattle.cc_mem.specs.Store as spec;

use crate::address::{address, stop};
use crate::line::{
    choice_site, filling_site, is_outside, keeps_told, loads, makes, makes_by, push_fill, scales,
    still, told_word, window_word,
};
use crate::word::{both_words, is_last, is_unaligned, push_by_byte, tell_byte};
use cc_line::{
    Act, Block, Check, Cond, Conds, Item, OpenAct, OpenStep, Scratch, Site, Spot, Stem, Step,
    push_item, push_steps,
};
use mc_cmd::{Op, Range};
use mc_nbt::Memory;
use std::alloc::Global;
use wm_ast::StoreOp;

/// The items of a store: of the value in a place, to the address in another one, with an offset. `sure` says that the
/// memory has a page in any case. Those of a store of an i64 write nothing.
///
/// # Errors
///
/// `Memory` where there is no room for them.
pub fn store(
    alloc: Global,
    sure: bool,
    op: StoreOp,
    place: u32,
    offset: u32,
    value: u32,
) -> Result<Block, Memory>
    ensures { IfOk result (λ b. block_items b ≡ spec.store_items sure op place offset value) }
{
    let found = address(alloc, sure, place, offset)?;
    let take = Step::Run(Act::LoadPlace {
        to: Scratch::S,
        place: value,
    });
    let begin = Block::of_steps(alloc, &[take])?;
    let mut items = writes(alloc, op)?;
    push_steps(&[stop()], &mut items)?;
    found.join(begin.join(Block::of(items)?)?)
}

// The bytes of the value in `#s` are written.
fn writes(alloc: Global, op: StoreOp) -> Result<Vec<Item>, Memory>
    ensures { IfOk result (λ xs. items_view xs.items ≡ spec.write_items op) }
{
    match op {
        StoreOp::I32Store => store32(alloc),
        StoreOp::I32Store8 => store8(alloc),
        StoreOp::I32Store16 => store16(alloc),
        _ => Ok(Vec::new(alloc)),
    }
}

// No trap has been recorded.
fn is_calm() -> Cond
    ensures { cond_view result ≡ spec.is_calm }
{
    Cond::Holds(Check::InRange(Spot::Scratch(Scratch::Trap), Range::One(0)))
}

// ---- four bytes

fn store32(alloc: Global) -> Result<Vec<Item>, Memory>
    ensures { IfOk result (λ xs. items_view xs.items ≡ spec.store32_items) }
{
    let across = across(alloc)?;
    let mut items = Vec::new(alloc);
    push_put(alloc, &mut items)?;
    push_item(
        Item::call_when(is_unaligned(), "h_mem_store32", across),
        &mut items,
    )?;
    Ok(items)
}

// A whole word.
fn push_put(alloc: Global, items: &mut Vec<Item>) -> Result<(), Memory>
    ensures { OnOk result (items_view items.new.items
        ≡ join (items_view items.old.items) (first spec.put_item no_more)) }
{
    let aligned = Cond::Holds(Check::InRange(Spot::Scratch(Scratch::R), Range::One(0)));
    let act = OpenAct::KeepSite {
        site: window_word(),
        from: Scratch::S,
    };
    let put = [OpenStep::When(Conds::Two(is_calm(), aligned), act)];
    push_fill(alloc, "h_mem_put", filling_site(), &put, items)
}

// Over two words.
fn across(alloc: Global) -> Result<Vec<Item>, Memory>
    ensures { IfOk result (λ xs. items_view xs.items ≡ spec.across_items) }
{
    let mut items = both_words(alloc)?;
    push_by_byte(alloc, "h_mem_spread", &spread(), &mut items)?;
    push_second(alloc, &mut items)?;
    push_first(alloc, &mut items)?;
    Ok(items)
}

// `#u` becomes the first one, whose low bytes stay, and `#d` the second one, whose high bytes do.
fn spread() -> [OpenStep; 10]
    ensures { open_steps_view result ≡ spec.spread_steps }
{
    [
        makes_by(Scratch::U, Op::Remainder, Stem::Byte),
        still(makes(Scratch::Y, Op::Assign, Scratch::S)),
        makes_by(Scratch::Y, Op::Multiply, Stem::Byte),
        still(makes(Scratch::U, Op::Add, Scratch::Y)),
        still(makes(Scratch::Y, Op::Assign, Scratch::D)),
        makes_by(Scratch::Y, Op::Remainder, Stem::Byte),
        still(makes(Scratch::D, Op::Subtract, Scratch::Y)),
        makes_by(Scratch::S, Op::Divide, Stem::Rest),
        makes_by(Scratch::S, Op::Remainder, Stem::Byte),
        still(makes(Scratch::D, Op::Add, Scratch::S)),
    ]
}

// ---- writes

fn push_first(alloc: Global, items: &mut Vec<Item>) -> Result<(), Memory>
    ensures { OnOk result (items_view items.new.items
        ≡ join (items_view items.old.items) (first spec.write_first no_more)) }
{
    let write = keeps_told(window_word(), Scratch::U);
    push_write(alloc, "h_mem_put_word", filling_site(), write, items)
}

// The second word is written before the first one.
fn push_second(alloc: Global, items: &mut Vec<Item>) -> Result<(), Memory>
    ensures { OnOk result (items_view items.new.items
        ≡ join (items_view items.old.items) (first spec.write_second no_more)) }
{
    let write = keeps_told(told_word(), Scratch::D);
    push_write(alloc, "h_mem_put_told", choice_site(), write, items)
}

// Adds a helper of one line that is called where no trap has been recorded.
fn push_write(
    alloc: Global,
    name: &'static str,
    site: Site,
    write: OpenStep,
    items: &mut Vec<Item>,
) -> Result<(), Memory>
    ensures { OnOk result (items_view items.new.items ≡ join (items_view items.old.items)
        (first (fill_when (spec.is_calm ∷ []) name.now (site_view site) (open_step_view write ∷ [])) no_more)) }
{
    let steps = Vec::from_slice(alloc, &[write])?;
    push_item(
        Item::fill_when(Conds::One(is_calm()), name, site, steps),
        items,
    )
}

// ---- one byte, and two

// The low bytes of the value, less those that stand there, as often as their place says, are added to the word.
fn change(width: u32) -> [OpenStep; 9]
    requires { width ≤ 3 }
    ensures { open_steps_view result ≡ spec.change_steps width }
{
    [
        loads(Scratch::U, window_word()),
        still(makes(Scratch::Y, Op::Assign, Scratch::U)),
        makes_by(Scratch::Y, Op::Divide, Stem::Byte),
        still(scales(Scratch::Y, Op::Remainder, width)),
        still(makes(Scratch::Z, Op::Assign, Scratch::S)),
        still(scales(Scratch::Z, Op::Remainder, width)),
        still(makes(Scratch::Z, Op::Subtract, Scratch::Y)),
        makes_by(Scratch::Z, Op::Multiply, Stem::Byte),
        still(makes(Scratch::U, Op::Add, Scratch::Z)),
    ]
}

fn store8(alloc: Global) -> Result<Vec<Item>, Memory>
    ensures { IfOk result (λ xs. items_view xs.items ≡ spec.store8_items) }
{
    let mut items = Vec::new(alloc);
    push_by_byte(alloc, "h_mem_change8", &change(1), &mut items)?;
    push_first(alloc, &mut items)?;
    Ok(items)
}

fn store16(alloc: Global) -> Result<Vec<Item>, Memory>
    ensures { IfOk result (λ xs. items_view xs.items ≡ spec.store16_items) }
{
    let within = half(alloc)?;
    let over = half_across(alloc)?;
    let not_last = is_outside(Scratch::R, Range::One(3));
    let mut items = Vec::new(alloc);
    push_steps(&[tell_byte()], &mut items)?;
    push_item(
        Item::call_when(not_last, "h_mem_store16", within),
        &mut items,
    )?;
    push_item(
        Item::call_when(is_last(), "h_mem_store16_over", over),
        &mut items,
    )?;
    Ok(items)
}

// Within a word.
fn half(alloc: Global) -> Result<Vec<Item>, Memory>
    ensures { IfOk result (λ xs. items_view xs.items ≡ spec.half_items) }
{
    let mut items = Vec::new(alloc);
    push_fill(
        alloc,
        "h_mem_change16",
        filling_site(),
        &change(2),
        &mut items,
    )?;
    push_first(alloc, &mut items)?;
    Ok(items)
}

// From the last byte of a word on: that byte, and the first one of the next word.
fn half_across(alloc: Global) -> Result<Vec<Item>, Memory>
    ensures { IfOk result (λ xs. items_view xs.items ≡ spec.half_across_items) }
{
    let mut items = both_words(alloc)?;
    push_steps(&pair_steps(), &mut items)?;
    push_second(alloc, &mut items)?;
    push_first(alloc, &mut items)?;
    Ok(items)
}

fn pair_steps() -> [Step; 14]
    ensures { steps_view result ≡ spec.half_over_steps }
{
    [
        makes(Scratch::Y, Op::Assign, Scratch::U),
        scales(Scratch::Y, Op::Divide, 3),
        scales(Scratch::Y, Op::Remainder, 1),
        makes(Scratch::Z, Op::Assign, Scratch::S),
        scales(Scratch::Z, Op::Remainder, 1),
        makes(Scratch::Z, Op::Subtract, Scratch::Y),
        scales(Scratch::Z, Op::Multiply, 3),
        makes(Scratch::U, Op::Add, Scratch::Z),
        makes(Scratch::Y, Op::Assign, Scratch::D),
        scales(Scratch::Y, Op::Remainder, 1),
        makes(Scratch::D, Op::Subtract, Scratch::Y),
        scales(Scratch::S, Op::Divide, 1),
        scales(Scratch::S, Op::Remainder, 1),
        makes(Scratch::D, Op::Add, Scratch::S),
    ]
}
