// Copying within the memory, byte by byte.
ghost use Rattle.std.specs.Prelude.{◌≡◌, IfOk};
ghost use Rattle.mc_cmd.specs.Command.{greater};
ghost use Rattle.mc_cmd.specs.View.{op_view};
ghost use Rattle.cc_line.specs.BlockView.{block_items};
ghost use Rattle.cc_line.specs.Place.{scratch};
ghost use Rattle.cc_line.specs.Step.{combine, compare, increase};
ghost use Rattle.cc_line.specs.View.{act_view, check_view, conds_view, scratch_text, site_view, steps_view};
ghost use Rattle.cc_mem.specs.Address.{at_c};
ghost use Rattle.cc_bulk.specs.Copy as spec;
ghost use Rattle.cc_bulk.specs.Fill.{at_a};
ghost use Rattle.cc_mem.specs.Load.{at_d};

use crate::filling::{keeps_place, loads_place};
use cc_line::{Act, Below, Block, Check, Cond, Conds, Key, Scratch, Site, Spot, Step, Store};
use cc_mem::{keeps, load, store};
use mc_cmd::{Cmp, Op};
use mc_nbt::Memory;
use std::alloc::Global;
use wm_ast::{LoadOp, StoreOp};

/// The items that copy a byte. A place has the address to which bytes are copied, another one that from which they are, and a
/// third one how many are still to be copied, at least one; all of them are within the memory. One is copied, the last one where
/// bytes go up, and else the first one, and the places have what is said of the others. `sure` says that the memory has a page in
/// any case.
///
/// # Errors
///
/// `Memory` where there is no room for them.
pub fn copy_byte(alloc: Global, sure: bool, to: u32, from: u32, count: u32) -> Result<Block, Memory>
    ensures { IfOk result (λ b. block_items b ≡ spec.copy_byte_items sure to from count) }
{
    let begin = Block::of_steps(alloc, &toward(to, from, count))?;
    let read = load(alloc, sure, LoadOp::I32Load8U, from, 0, count)?;
    let write = store(alloc, sure, StoreOp::I32Store8, to, 0, count)?;
    let end = Block::of_steps(alloc, &onward(to, from, count))?;
    begin.join(read.join(write.join(end)?)?)
}

// One byte less is still to be copied, which many go before the one that is copied next, where bytes go up.
fn toward(to: u32, from: u32, count: u32) -> [Step; 9]
    ensures { steps_view result ≡ spec.toward_steps to from count }
{
    [
        loads_place(Scratch::A, count),
        Step::Run(Act::Decrease {
            spot: Spot::Scratch(Scratch::A),
            by: 1,
        }),
        keeps(count_site(), Scratch::A),
        loads_place(Scratch::C, to),
        loads_place(Scratch::D, from),
        Step::When(goes_up(), combines(Scratch::C, Op::Add)),
        Step::When(goes_up(), combines(Scratch::D, Op::Add)),
        keeps_place(to, Scratch::C),
        keeps_place(from, Scratch::D),
    ]
}

// The addresses again, or, where bytes don't go up, the next ones.
fn onward(to: u32, from: u32, count: u32) -> [Step; 10]
    ensures { steps_view result ≡ spec.onward_steps to from count }
{
    [
        Step::Run(Act::LoadSite {
            to: Scratch::A,
            site: count_site(),
        }),
        loads_place(Scratch::C, to),
        loads_place(Scratch::D, from),
        Step::When(goes_up(), combines(Scratch::D, Op::Subtract)),
        Step::When(goes_up(), combines(Scratch::C, Op::Subtract)),
        Step::When(goes_down(), steps_on(Scratch::D)),
        Step::When(goes_down(), steps_on(Scratch::C)),
        keeps_place(to, Scratch::C),
        keeps_place(from, Scratch::D),
        keeps_place(count, Scratch::A),
    ]
}

// An address and the number of the other bytes.
fn combines(to: Scratch, op: Op) -> Act
    ensures { act_view result ≡ combine (scratch (scratch_text to)) (op_view op) at_a }
{
    Act::Combine {
        to: Spot::Scratch(to),
        op,
        from: Spot::Scratch(Scratch::A),
    }
}

// The next address.
fn steps_on(address: Scratch) -> Act
    ensures { act_view result ≡ increase (scratch (scratch_text address)) 1 }
{
    Act::Increase {
        spot: Spot::Scratch(address),
        by: 1,
    }
}

// Bytes go up.
fn goes_up() -> Conds
    ensures { conds_view result ≡ spec.goes_up }
{
    Conds::One(Cond::Holds(is_above()))
}

// They don't.
fn goes_down() -> Conds
    ensures { conds_view result ≡ spec.goes_down }
{
    Conds::One(Cond::Fails(is_above()))
}

// The address to which bytes are copied is above that from which they are.
fn is_above() -> Check
    ensures { check_view result ≡ compare at_c greater at_d }
{
    Check::Compare(
        Spot::Scratch(Scratch::C),
        Cmp::Greater,
        Spot::Scratch(Scratch::D),
    )
}

// Where the count stands meanwhile.
fn count_site() -> Site
    ensures { site_view result ≡ spec.count_site }
{
    Site {
        store: Store::Rest,
        key: Key::Entry,
        below: Below::Nothing,
    }
}
