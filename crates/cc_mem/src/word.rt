// The word at an address, and the next one.
ghost use Rattle.std.specs.Prelude.{◌≡◌, IfOk, OnOk};
ghost use Rattle.cc_line.specs.Item.{fill_item, first, join, no_more, step_item};
ghost use Rattle.cc_line.specs.Place.{scratch};
ghost use Rattle.cc_line.specs.Step.{increase, run_act};
ghost use Rattle.cc_line.specs.View.{conds_view, items_view, open_steps_view, scratch_text, step_view, steps_view};
ghost use Rattle.cc_mem.specs.Address.{filling_site};
ghost use Rattle.cc_mem.specs.Load as spec;

use crate::line::{
    choice_at, choice_site, clears_choice, filling_at, filling_site, is_in, is_outside, keeps,
    loads, makes, push_fill, told_word, window_word,
};
use crate::window::{push_there, trap_where_missing};
use cc_line::{Act, Conds, Item, Key, Leaf, OpenStep, Scratch, Spot, Step, push_item, push_steps};
use mc_cmd::{Op, Range};
use mc_nbt::Memory;
use std::alloc::Global;

// So many words has a page.
const PAGE_WORDS: i32 = 16_384;

/// The word comes to `#u`: adds the item that does so.
///
/// # Errors
///
/// `Memory` where there is no room for it, as all functions here.
pub(crate) fn push_word(alloc: Global, items: &mut Vec<Item>) -> Result<(), Memory>
    ensures { OnOk result (items_view items.new.items
        ≡ join (items_view items.old.items) (first spec.word_item no_more)) }
{
    let load = [loads(Scratch::U, window_word())];
    push_fill(alloc, "h_mem_word", filling_site(), &load, items)
}

/// The next one comes to `#d`.
pub(crate) fn push_next_word(alloc: Global, items: &mut Vec<Item>) -> Result<(), Memory>
    ensures { OnOk result (items_view items.new.items
        ≡ join (items_view items.old.items) (first spec.next_item no_more)) }
{
    let next = next_items(alloc)?;
    push_item(Item::call("h_mem_next", next), items)
}

/// The word, and the next one.
pub(crate) fn both_words(alloc: Global) -> Result<Vec<Item>, Memory>
    ensures { IfOk result (λ xs. items_view xs.items ≡ first spec.word_item (first spec.next_item no_more)) }
{
    let mut items = Vec::new(alloc);
    push_word(alloc, &mut items)?;
    push_next_word(alloc, &mut items)?;
    Ok(items)
}

fn next_items(alloc: Global) -> Result<Vec<Item>, Memory>
    ensures { IfOk result (λ xs. items_view xs.items ≡ spec.next_items) }
{
    let mut items = Vec::new(alloc);
    push_steps(&next_steps(), &mut items)?;
    push_over(alloc, &mut items)?;
    push_there(alloc, &mut items)?;
    push_steps(&[trap_where_missing()], &mut items)?;
    push_told(alloc, &mut items)?;
    Ok(items)
}

// Its page and its place are told.
fn next_steps() -> [Step; 5]
    ensures { steps_view result ≡ spec.next_steps }
{
    [
        makes(Scratch::K, Op::Assign, Scratch::I),
        one_more(Scratch::K),
        clears_choice(),
        Step::Run(Act::CopySite {
            to: choice_at(Key::A0),
            from: filling_at(Key::Page),
        }),
        keeps(choice_at(Key::A1), Scratch::K),
    ]
}

// It may be the first one of the next page.
fn push_over(alloc: Global, items: &mut Vec<Item>) -> Result<(), Memory>
    ensures { OnOk result (items_view items.new.items
        ≡ join (items_view items.old.items) (first spec.over_item no_more)) }
{
    let is_over = is_in(Scratch::K, Range::One(PAGE_WORDS));
    let mut over = Vec::new(alloc);
    push_steps(&over_steps(), &mut over)?;
    push_item(Item::call_when(is_over, "h_mem_over", over), items)
}

fn over_steps() -> [Step; 4]
    ensures { steps_view result ≡ spec.over_steps }
{
    [
        Step::Run(Act::LoadSite {
            to: Scratch::P,
            site: filling_at(Key::Page),
        }),
        one_more(Scratch::P),
        keeps(choice_at(Key::A0), Scratch::P),
        Step::Run(Act::SetSite {
            site: choice_at(Key::A1),
            leaf: Leaf::Int(0),
        }),
    ]
}

fn one_more(score: Scratch) -> Step
    ensures { step_view result ≡ run_act (increase (scratch (scratch_text score)) 1) }
{
    Step::Run(Act::Increase {
        spot: Spot::Scratch(score),
        by: 1,
    })
}

fn push_told(alloc: Global, items: &mut Vec<Item>) -> Result<(), Memory>
    ensures { OnOk result (items_view items.new.items
        ≡ join (items_view items.old.items) (first spec.told_item no_more)) }
{
    let load = [loads(Scratch::D, told_word())];
    push_fill(alloc, "h_mem_told", choice_site(), &load, items)
}

// ---- the byte in the word

/// The byte at which an access begins is told to a helper of these lines.
#[tactic(auto, using(cc_line::proofs::ItemViewLemmas::join_assoc,))]
pub(crate) fn push_by_byte(
    alloc: Global,
    name: &'static str,
    steps: &[OpenStep],
    items: &mut Vec<Item>,
) -> Result<(), Memory>
    ensures { OnOk result (items_view items.new.items ≡ join (items_view items.old.items)
        (first (step_item spec.byte_step)
        (first (fill_item name.now filling_site (open_steps_view steps.now)) no_more))) }
{
    push_steps(&[tell_byte()], items)?;
    push_fill(alloc, name, filling_site(), steps, items)
}

/// The byte at which an access begins is told.
pub(crate) fn tell_byte() -> Step
    ensures { step_view result ≡ spec.byte_step }
{
    keeps(filling_at(Key::Byte), Scratch::R)
}

/// An access doesn't begin with the word.
pub(crate) fn is_unaligned() -> Conds
    ensures { conds_view result ≡ spec.is_unaligned }
{
    is_outside(Scratch::R, Range::One(0))
}

/// It begins with the last byte of the word.
pub(crate) fn is_last() -> Conds
    ensures { conds_view result ≡ spec.is_last }
{
    is_in(Scratch::R, Range::One(3))
}
