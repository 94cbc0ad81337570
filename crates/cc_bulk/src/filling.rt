// Filling the memory, byte by byte.
ghost use Rattle.std.specs.Prelude.{◌≡◌, IfOk};
ghost use Rattle.cc_line.specs.BlockView.{block_items};
ghost use Rattle.cc_line.specs.Place.{scratch};
ghost use Rattle.cc_line.specs.Step.{keep_place, load_place, run_act};
ghost use Rattle.cc_line.specs.View.{conds_view, scratch_text, step_view};
ghost use Rattle.cc_bulk.specs.Fill as spec;

use cc_line::{Act, Block, Check, Cond, Conds, Scratch, Spot, Step};
use cc_mem::{is_in, makes, pages, record_trap, scales, stop, store};
use mc_cmd::{Cmp, Op, Range};
use mc_nbt::Memory;
use std::alloc::Global;
use wm_ast::StoreOp;

/// The items of a test. A place has the address of a byte, and another one how many bytes there are from it on: where they reach
/// beyond the end of the memory, the trap is recorded, and the list ends.
///
/// # Errors
///
/// `Memory` where there is no room for them.
pub fn reach(alloc: Global, place: u32, count: u32) -> Result<Block, Memory>
    ensures { IfOk result (λ b. block_items b ≡ spec.reach_items place count) }
{
    let steps = [
        loads_place(Scratch::A, place),
        loads_place(Scratch::D, count),
        Step::Run(Act::LoadSite {
            to: Scratch::C,
            site: pages(),
        }),
        scales(Scratch::C, Op::Multiply, 2),
        Step::When(has_sign(Scratch::A), record_trap()),
        Step::When(has_sign(Scratch::D), record_trap()),
        makes(Scratch::C, Op::Subtract, Scratch::A),
        Step::When(is_too_much(), record_trap()),
        stop(),
    ];
    Block::of_steps(alloc, &steps)
}

/// The items that write a byte. A place has its address, which is within the memory, another one a number, and a third one how
/// many bytes are still to be written, at least one: the low byte of the number is written, the address is the next one then, and
/// a byte less is still to be written. `sure` says that the memory has a page in any case.
///
/// # Errors
///
/// `Memory` where there is no room for them.
pub fn fill_byte(
    alloc: Global,
    sure: bool,
    place: u32,
    value: u32,
    count: u32,
) -> Result<Block, Memory>
    ensures { IfOk result (λ b. block_items b ≡ spec.fill_byte_items sure place value count) }
{
    let write = store(alloc, sure, StoreOp::I32Store8, place, 0, value)?;
    let steps = [
        loads_place(Scratch::A, place),
        Step::Run(Act::Increase {
            spot: Spot::Scratch(Scratch::A),
            by: 1,
        }),
        keeps_place(place, Scratch::A),
        loads_place(Scratch::A, count),
        Step::Run(Act::Decrease {
            spot: Spot::Scratch(Scratch::A),
            by: 1,
        }),
        keeps_place(count, Scratch::A),
    ];
    write.join(Block::of_steps(alloc, &steps)?)
}

// ---- steps

/// A score gets the number in a place.
pub(crate) fn loads_place(to: Scratch, place: u32) -> Step
    ensures { step_view result ≡ run_act (load_place (scratch_text to) place) }
{
    Step::Run(Act::LoadPlace { to, place })
}

/// A place gets the number of a score.
pub(crate) fn keeps_place(place: u32, from: Scratch) -> Step
    ensures { step_view result ≡ run_act (keep_place place (scratch_text from)) }
{
    Step::Run(Act::KeepPlace { place, from })
}

// ---- conditions

// A score is below 0.
fn has_sign(score: Scratch) -> Conds
    ensures { conds_view result ≡ spec.has_sign (scratch (scratch_text score)) }
{
    is_in(score, Range::To(-1))
}

// There are more bytes than up to the end of the memory.
fn is_too_much() -> Conds
    ensures { conds_view result ≡ spec.is_too_much }
{
    Conds::One(Cond::Holds(Check::Compare(
        Spot::Scratch(Scratch::D),
        Cmp::Greater,
        Spot::Scratch(Scratch::C),
    )))
}
