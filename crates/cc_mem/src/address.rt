// The address of an access: where it lies in the window.
ghost use Rattle.std.specs.Prelude.{◌≡◌, ◌+◌, ◌<◌, ◌∷◌, ◌++◌, codes, pos, IfOk, OnOk};
ghost use Rattle.mc_cmd.specs.Command.{subtract};
ghost use Rattle.cc_line.specs.BlockView.{block_items};
ghost use Rattle.cc_line.specs.Item.{call_when, first, no_more, step_item, steps_items};
ghost use Rattle.cc_line.specs.Key.{score_window};
ghost use Rattle.cc_line.specs.Place.{scratch};
ghost use Rattle.cc_line.specs.Step.{combine, increase, keep_site, load_place, run_act};
ghost use Rattle.cc_line.specs.View.{act_view, conds_view, name_text, step_view, steps_view};
ghost use Rattle.cc_mem.specs.Address as spec;

use crate::line::{filling_at, first_page, is_in, is_outside, keeps, makes};
use crate::window::move_items;
use cc_line::{
    Act, Block, Check, Cond, Conds, Item, Key, Name, Scratch, Spot, Step, push_item, push_steps,
};
use mc_cmd::{Op, Range};
use mc_nbt::Memory;
use std::alloc::Global;

// The number of the trap of an access out of bounds.
const BOUNDS_TRAP: i32 = 4;

// Offsets up to this one are near.
const MOST_NEAR: u32 = 8192;

/// None from this one on leads into the memory, and no address.
pub(crate) const NO_OFFSET: i32 = 16_777_216;

// Below all that an offset may bring to the window.
const FAR_BELOW: i32 = -33_554_432;

// The last place of a page.
const LAST_PLACE: i32 = 16_383;

/// The items that find the address in a place, with an offset. `sure` says that the memory has a page in any case.
///
/// # Errors
///
/// `Memory` where there is no room for them.
pub(crate) fn address(alloc: Global, sure: bool, place: u32, offset: u32) -> Result<Block, Memory>
    ensures { IfOk result (λ b. block_items b ≡ spec.address_items sure place offset) }
{
    if offset >= NO_OFFSET as u32 {
        Block::of_steps(alloc, &[Step::Run(record_trap()), stop()])
    } else {
        find(alloc, sure, place, offset)
    }
}

// The same of an offset below that.
fn find(alloc: Global, sure: bool, place: u32, offset: u32) -> Result<Block, Memory>
    requires { offset < spec.no_offset }
    ensures { IfOk result (λ b. block_items b ≡ spec.find_items sure place offset) }
{
    let empty = stop_at_none(alloc, sure)?;
    let start = start(alloc, place, offset)?;
    let settle = settle(alloc, offset)?;
    empty.join(start.join(settle)?)
}

// The window moves where it has to, and the place in it is told.
fn settle(alloc: Global, offset: u32) -> Result<Block, Memory>
    ensures { IfOk result (λ b. block_items b
        ≡ first (call_when (spec.beside_window offset) (spec.move_name offset) (spec.move_items offset))
        (first (step_item (run_act (keep_site (spec.filling_at (codes "i")) (codes "#i")))) no_more)) }
{
    let moved = move_items(alloc, offset)?;
    let mut items = Vec::new(alloc);
    push_item(
        Item::call_named_when(beside_window(offset), move_name(offset), moved),
        &mut items,
    )?;
    push_steps(&[keeps(filling_at(Key::Place), Scratch::I)], &mut items)?;
    Block::of(items)
}

// ---- traps

/// The trap of an access out of bounds is recorded.
pub fn record_trap() -> Act
    ensures { act_view result ≡ spec.record_trap }
{
    Act::SetSpot {
        spot: Spot::Scratch(Scratch::Trap),
        value: BOUNDS_TRAP,
    }
}

/// The list ends where a trap has been recorded.
pub fn stop() -> Step
    ensures { step_view result ≡ spec.stop_step }
{
    Step::StopWhen(is_in(Scratch::Trap, Range::From(1)))
}

// Where the memory may have no page, an access traps where it has none.
fn stop_at_none(alloc: Global, sure: bool) -> Result<Block, Memory>
    ensures { IfOk result (λ b. block_items b ≡ steps_items (spec.empty_steps sure)) }
{
    if sure {
        return Block::of_steps(alloc, &[]);
    }
    let none = Conds::One(Cond::Fails(Check::Stands(first_page())));
    Block::of_steps(
        alloc,
        &[Step::When(none, record_trap()), Step::StopWhen(none)],
    )
}

// ---- from the window's beginning on

// The steps that find where an address lies from the window's beginning on.
fn start(alloc: Global, place: u32, offset: u32) -> Result<Block, Memory>
    requires { offset < spec.no_offset }
    ensures { IfOk result (λ b. block_items b ≡ steps_items (spec.start_steps place offset)) }
{
    let mut steps = from_window(alloc, place, offset)?;
    add_steps(&split_steps(), &mut steps)?;
    Block::of_steps(alloc, steps.as_slice())
}

// Where the offset isn't near, an address that leads nowhere goes far below the window.
fn from_window(alloc: Global, place: u32, offset: u32) -> Result<Vec<Step>, Memory>
    requires { offset < spec.no_offset }
    ensures { IfOk result (λ xs. steps_view xs.items
        ≡ run_act (load_place (codes "#i") place) ∷ (spec.far_steps offset
        ++ (run_act (combine spec.at_i subtract (scratch score_window)) ∷ spec.add_steps offset))) }
{
    let load = Step::Run(Act::LoadPlace {
        to: Scratch::I,
        place,
    });
    let subtract = makes(Scratch::I, Op::Subtract, Scratch::Window);
    if offset == 0 {
        Ok(Vec::from_slice(alloc, &[load, subtract])?)
    } else if offset <= MOST_NEAR {
        Ok(Vec::from_slice(alloc, &[load, subtract, more(offset)])?)
    } else {
        let far = [load, unless_inside(FAR_BELOW), subtract, more(offset)];
        Ok(Vec::from_slice(alloc, &far)?)
    }
}

/// An address that leads nowhere, with a sign or from 2^24 on, becomes this one.
pub(crate) fn unless_inside(other: i32) -> Step
    ensures { step_view result ≡ spec.unless_inside other }
{
    let act = Act::SetSpot {
        spot: Spot::Scratch(Scratch::I),
        value: other,
    };
    Step::When(is_outside(Scratch::I, Range::Both(0, NO_OFFSET - 1)), act)
}

/// For an offset that is near, and isn't 0, there is a helper of its own that moves the window.
pub(crate) fn is_told(offset: u32) -> bool
    ensures { result ≡ spec.is_told offset }
{
    offset >= 1 && offset <= MOST_NEAR
}

/// An offset more.
pub(crate) fn more(offset: u32) -> Step
    ensures { step_view result ≡ run_act (increase spec.at_i offset) }
{
    Step::Run(Act::Increase {
        spot: Spot::Scratch(Scratch::I),
        by: offset,
    })
}

/// The steps that split an address into the byte of a word and the place of the word.
pub(crate) fn split_steps() -> [Step; 3]
    ensures { steps_view result ≡ spec.split_steps }
{
    [
        makes(Scratch::R, Op::Assign, Scratch::I),
        makes(Scratch::R, Op::Remainder, Scratch::Four),
        makes(Scratch::I, Op::Divide, Scratch::Four),
    ]
}

/// Adds steps to others.
///
/// # Errors
///
/// `Memory` where there is no room for them.
pub(crate) fn add_steps(more: &[Step], steps: &mut Vec<Step>) -> Result<(), Memory>
    ensures { OnOk result (steps_view steps.new.items ≡ steps_view steps.old.items ++ steps_view more.now) }
{
    steps.extend_from_slice(more)?;
    Ok(())
}

// ---- beside the window

// The first places of the window count as outside of it, as many as a near offset may lead over.
fn beside_window(offset: u32) -> Conds
    ensures { conds_view result ≡ spec.beside_window offset }
{
    is_outside(Scratch::I, Range::Both(least_place(offset), LAST_PLACE))
}

fn least_place(offset: u32) -> i32
    ensures { result ≡ pos (spec.least_place offset) }
{
    if offset <= MOST_NEAR {
        ((offset + 3) / 4) as i32
    } else {
        0
    }
}

// The name of the helper that moves the window.
fn move_name(offset: u32) -> Name
    ensures { name_text result ≡ spec.move_name offset }
{
    if is_told(offset) {
        Name::Numbered("h_mem_move_", offset)
    } else {
        Name::Plain("h_mem_move")
    }
}
