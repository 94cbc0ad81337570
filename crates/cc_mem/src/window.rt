// The helpers that make the page of an address the window.
ghost use Rattle.std.specs.Prelude.{◌≡◌, IfOk, OnOk};
ghost use Rattle.cc_line.specs.Item.{first, join, no_more};
ghost use Rattle.cc_line.specs.Step.{decrease, run_act};
ghost use Rattle.cc_line.specs.View.{items_view, step_view, steps_view};
ghost use Rattle.cc_mem.specs.Address as spec;

use crate::address::{
    NO_OFFSET, add_steps, is_told, more, record_trap, split_steps, unless_inside,
};
use crate::line::{
    choice_at, choice_site, clears_choice, filling_at, is_in, is_outside, keeps, loads, makes,
    push_fill, scale_of, told_page,
};
use cc_line::{Act, Item, Key, Scratch, Spot, Step, push_steps};
use mc_cmd::{Op, Range};
use mc_nbt::Memory;
use std::alloc::Global;

/// What such a helper does, of an offset.
///
/// # Errors
///
/// `Memory` where there is no room for it.
#[tactic(auto, using(cc_line::proofs::ItemViewLemmas::join_assoc,))]
pub(crate) fn move_items(alloc: Global, offset: u32) -> Result<Vec<Item>, Memory>
    ensures { IfOk result (λ xs. items_view xs.items ≡ spec.move_items offset) }
{
    let locate = locate(alloc, offset)?;
    let mut items = Vec::new(alloc);
    push_steps(locate.as_slice(), &mut items)?;
    push_there(alloc, &mut items)?;
    push_steps(&move_steps(), &mut items)?;
    Ok(items)
}

fn locate(alloc: Global, offset: u32) -> Result<Vec<Step>, Memory>
    ensures { IfOk result (λ xs. steps_view xs.items ≡ spec.locate_steps offset) }
{
    let mut steps = again(alloc, offset)?;
    add_steps(&split_steps(), &mut steps)?;
    add_steps(&page_steps(), &mut steps)?;
    Ok(steps)
}

// The address again, or what no page has.
fn again(alloc: Global, offset: u32) -> Result<Vec<Step>, Memory>
    ensures { IfOk result (λ xs. steps_view xs.items ≡ spec.again_steps offset) }
{
    let bytes = makes(Scratch::I, Op::Multiply, Scratch::Four);
    let byte = makes(Scratch::I, Op::Add, Scratch::R);
    let start = makes(Scratch::I, Op::Add, Scratch::Window);
    let none = unless_inside(NO_OFFSET);
    if is_told(offset) {
        let told = [bytes, byte, start, less(offset), none, more(offset)];
        Ok(Vec::from_slice(alloc, &told)?)
    } else {
        Ok(Vec::from_slice(alloc, &[bytes, byte, start, none])?)
    }
}

// An offset less.
fn less(offset: u32) -> Step
    ensures { step_view result ≡ run_act (decrease spec.at_i offset) }
{
    Step::Run(Act::Decrease {
        spot: Spot::Scratch(Scratch::I),
        by: offset,
    })
}

// Its page and its place, and the page is told.
fn page_steps() -> [Step; 5]
    ensures { steps_view result ≡ spec.page_steps }
{
    [
        makes(Scratch::P, Op::Assign, Scratch::I),
        makes(Scratch::P, Op::Divide, Scratch::PageWords),
        makes(Scratch::I, Op::Remainder, Scratch::PageWords),
        clears_choice(),
        keeps(choice_at(Key::A0), Scratch::P),
    ]
}

/// The length of the page that is told comes to `#c`, 0 where it doesn't stand: adds the item that does so.
pub(crate) fn push_there(alloc: Global, items: &mut Vec<Item>) -> Result<(), Memory>
    ensures { OnOk result (items_view items.new.items
        ≡ join (items_view items.old.items) (first spec.there_item no_more)) }
{
    let load = [loads(Scratch::C, told_page())];
    push_fill(alloc, "h_mem_there", choice_site(), &load, items)
}

/// Where it doesn't stand an access traps.
pub(crate) fn trap_where_missing() -> Step
    ensures { step_view result ≡ spec.missing_step }
{
    Step::When(is_in(Scratch::C, Range::One(0)), record_trap())
}

// Where it does, it is the window.
fn move_steps() -> [Step; 4]
    ensures { steps_view result ≡ spec.move_steps }
{
    let there = is_outside(Scratch::C, Range::One(0));
    let window = Spot::Scratch(Scratch::Window);
    let tell = Act::KeepSite {
        site: filling_at(Key::Page),
        from: Scratch::P,
    };
    let page = Act::Combine {
        to: window,
        op: Op::Assign,
        from: Spot::Scratch(Scratch::P),
    };
    let first = Act::Combine {
        to: window,
        op: Op::Multiply,
        from: scale_of(2),
    };
    [
        trap_where_missing(),
        Step::When(there, tell),
        Step::When(there, page),
        Step::When(there, first),
    ]
}
