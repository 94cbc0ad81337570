// Loads of all widths.
ghost use Rattle.std.specs.Prelude.{◌≡◌, IfOk};
ghost use Rattle.cc_line.specs.BlockView.{block_items};
ghost use Rattle.cc_line.specs.Item.{steps_items};
ghost use Rattle.cc_line.specs.View.{conds_view};
ghost use Rattle.cc_access.specs.Access as spec;

use crate::offset::next_offset;
use cc_line::{Act, Block, Check, Cond, Conds, Scratch, Spot, Step, next_place};
use cc_mem::load as load_word;
use mc_cmd::Range;
use mc_nbt::Memory;
use std::alloc::Global;
use wm_ast::LoadOp;

/// The items of a load. The address is in a place, with an offset, and the result comes to the places from that one on, of an i64
/// the low half first. `sure` says that the memory has a page in any case.
///
/// # Errors
///
/// `Memory` where there is no room for them, or no number for a place.
pub fn load(alloc: Global, sure: bool, op: LoadOp, place: u32, offset: u32) -> Result<Block, Memory>
    ensures { IfOk result (λ b. block_items b ≡ spec.load_items sure op place offset) }
{
    let before = before(alloc, sure, op, place, offset)?;
    let low = load_word(alloc, sure, low_load(op), place, offset, place)?;
    let high = high(alloc, op, place)?;
    before.join(low.join(high)?)
}

/// The load of an i32 that gives the low half.
pub(crate) fn low_load(op: LoadOp) -> LoadOp
    ensures { result ≡ spec.low_load op }
{
    match op {
        LoadOp::I64Load => LoadOp::I32Load,
        LoadOp::I64Load8S => LoadOp::I32Load8S,
        LoadOp::I64Load8U => LoadOp::I32Load8U,
        LoadOp::I64Load16S => LoadOp::I32Load16S,
        LoadOp::I64Load16U => LoadOp::I32Load16U,
        LoadOp::I64Load32S => LoadOp::I32Load,
        LoadOp::I64Load32U => LoadOp::I32Load,
        _ => op,
    }
}

// Of eight bytes the high half is loaded first, where the whole load traps if it does.
fn before(alloc: Global, sure: bool, op: LoadOp, place: u32, offset: u32) -> Result<Block, Memory>
    ensures { IfOk result (λ b. block_items b ≡ spec.before_load sure op place offset) }
{
    match op {
        LoadOp::I64Load => load_word(
            alloc,
            sure,
            LoadOp::I32Load,
            place,
            next_offset(offset),
            next_place(place)?,
        ),
        _ => Block::of_steps(alloc, &[]),
    }
}

/// The high half of a narrow load: the sign, or zeros.
///
/// # Errors
///
/// `Memory` where there is no room for it, or no number for its place.
pub(crate) fn high(alloc: Global, op: LoadOp, place: u32) -> Result<Block, Memory>
    ensures { IfOk result (λ b. block_items b ≡ steps_items (spec.high_steps op place)) }
{
    match op {
        LoadOp::I64Load8S => sign(alloc, place),
        LoadOp::I64Load16S => sign(alloc, place),
        LoadOp::I64Load32S => sign(alloc, place),
        LoadOp::I64Load8U => zeros(alloc, place),
        LoadOp::I64Load16U => zeros(alloc, place),
        LoadOp::I64Load32U => zeros(alloc, place),
        _ => Block::of_steps(alloc, &[]),
    }
}

fn zeros(alloc: Global, place: u32) -> Result<Block, Memory>
    ensures { IfOk result (λ b. block_items b ≡ steps_items (spec.zero_steps place)) }
{
    let set = Act::SetPlace {
        place: next_place(place)?,
        value: 0,
    };
    Block::of_steps(alloc, &[Step::Run(set)])
}

fn sign(alloc: Global, place: u32) -> Result<Block, Memory>
    ensures { IfOk result (λ b. block_items b ≡ steps_items (spec.sign_steps place)) }
{
    let high = next_place(place)?;
    let steps = [
        Step::Run(Act::LoadPlace {
            to: Scratch::U,
            place,
        }),
        Step::Run(Act::SetPlace {
            place: high,
            value: 0,
        }),
        Step::When(
            is_signed(),
            Act::SetPlace {
                place: high,
                value: -1,
            },
        ),
    ];
    Block::of_steps(alloc, &steps)
}

fn is_signed() -> Conds
    ensures { conds_view result ≡ spec.is_signed }
{
    Conds::One(Cond::Holds(Check::InRange(Spot::Scratch(Scratch::U), Range::To(-1))))
}
