// And, or and xor of the number in `#a` with a constant.
ghost use Rattle.std.specs.Prelude.{◌≡◌, ◌<◌, ◌++◌, IfOk, OnOk, codes, true};
ghost use Rattle.cc_line.specs.View.{steps_view};
ghost use Rattle.cc_known.specs.Mask as spec;

use crate::line::{change, rest};
use cc_bits::{makes, sets};
use cc_line::{Act, Scratch, Spot, Step};
use mc_cmd::Op;
use mc_nbt::Memory;
use std::alloc::Global;

// Whether a bit is 1.
fn is_one(number: u32, place: u32) -> bool
    requires { place < 32 }
    ensures { result ≡ spec.is_one number place }
{
    (number >> place) & 1 == 1
}

// `#a` by the rests of the number in `#c` by powers of two, from this one down, where the bits of a number change.
fn push_sum(
    twice: bool,
    place: u32,
    ones: bool,
    number: u32,
    steps: &mut Vec<Step>,
) -> Result<(), Memory>
    requires { place < 32 }
    ensures { OnOk result (steps_view steps.new.items
        ≡ steps_view steps.old.items ++ spec.sum_steps twice place ones number) }
{
    if place == 0 {
        return Ok(());
    }
    let below = place - 1;
    let one = is_one(number, below);
    if one == ones {
        return push_sum(twice, below, ones, number, steps);
    }
    push_part(twice, place, ones, steps)?;
    push_sum(twice, below, one, number, steps)
}

// A place where the bits change.
fn push_part(twice: bool, place: u32, ones: bool, steps: &mut Vec<Step>) -> Result<(), Memory>
    requires { place < 32 }
    ensures { OnOk result (steps_view steps.new.items
        ≡ steps_view steps.old.items ++ (spec.rest_steps place (codes "#c") ++ spec.change_steps twice ones)) }
{
    steps.extend_from_slice(&rest(place, Scratch::C))?;
    if twice {
        steps.push(change(ones))?;
    }
    steps.push(change(ones))?;
    Ok(())
}

// The same from a place on under ones, behind a copy of `#a` in `#c`, where there is anything.
fn push_copied(
    alloc: Global,
    twice: bool,
    place: u32,
    number: u32,
    steps: &mut Vec<Step>,
) -> Result<(), Memory>
    requires { place < 32 }
    ensures { OnOk result (steps_view steps.new.items
        ≡ steps_view steps.old.items ++ spec.after_copy (spec.sum_steps twice place true number)) }
{
    let mut sum = Vec::new(alloc);
    push_sum(twice, place, true, number, &mut sum)?;
    if sum.is_empty() {
        return Ok(());
    }
    steps.push(makes(Scratch::C, Op::Assign, Scratch::A))?;
    steps.extend_from_slice(sum.as_slice())?;
    Ok(())
}

fn push_and(alloc: Global, number: u32, steps: &mut Vec<Step>) -> Result<(), Memory>
    ensures { OnOk result (steps_view steps.new.items ≡ steps_view steps.old.items ++ spec.and_steps number) }
{
    if number == 0 {
        steps.push(sets(Scratch::A, 0))?;
        return Ok(());
    }
    if number >= 0x8000_0000 {
        return push_copied(alloc, false, 31, number, steps);
    }
    let count = 32 - number.leading_zeros();
    steps.extend_from_slice(&rest(count, Scratch::A))?;
    push_copied(alloc, false, count, number, steps)
}

// `#a` is a number without sign more.
fn push_more(number: u32, steps: &mut Vec<Step>) -> Result<(), Memory>
    ensures { OnOk result (steps_view steps.new.items ≡ steps_view steps.old.items ++ spec.more_steps number) }
{
    let spot = Spot::Scratch(Scratch::A);
    if number == 0 {
        return Ok(());
    }
    if number < 0x8000_0000 {
        steps.push(Step::Run(Act::Increase { spot, by: number }))?;
        return Ok(());
    }
    if number == 0x8000_0000 {
        steps.push(sets(Scratch::M, i32::MIN))?;
        steps.push(makes(Scratch::A, Op::Add, Scratch::M))?;
        return Ok(());
    }
    let by = u32::MAX - number + 1;
    steps.push(Step::Run(Act::Decrease { spot, by }))?;
    Ok(())
}

/// The bits that both have.
///
/// # Errors
///
/// `Memory` where there is no room for the steps.
pub(crate) fn and(alloc: Global, number: u32) -> Result<Vec<Step>, Memory>
    ensures { IfOk result (λ v. steps_view v.items ≡ spec.and_steps number) }
{
    let mut steps = Vec::new(alloc);
    push_and(alloc, number, &mut steps)?;
    Ok(steps)
}

/// The bits that one has.
///
/// # Errors
///
/// `Memory` where there is no room for the steps.
pub(crate) fn or(alloc: Global, number: u32) -> Result<Vec<Step>, Memory>
    ensures { IfOk result (λ v. steps_view v.items ≡ spec.or_steps number) }
{
    let mut steps = Vec::new(alloc);
    push_and(alloc, !number, &mut steps)?;
    push_more(number, &mut steps)?;
    Ok(steps)
}

// All bits turned.
fn turn() -> [Step; 3]
    ensures { steps_view result ≡ spec.turn_steps }
{
    [
        sets(Scratch::M, -1),
        Step::Run(Act::Increase {
            spot: Spot::Scratch(Scratch::A),
            by: 1,
        }),
        makes(Scratch::A, Op::Multiply, Scratch::M),
    ]
}

/// The bits that one alone has.
///
/// # Errors
///
/// `Memory` where there is no room for the steps.
pub(crate) fn xor(alloc: Global, number: u32) -> Result<Vec<Step>, Memory>
    ensures { IfOk result (λ v. steps_view v.items ≡ spec.xor_steps number) }
{
    let mut steps = Vec::new(alloc);
    if number == u32::MAX {
        steps.extend_from_slice(&turn())?;
        return Ok(steps);
    }
    push_copied(alloc, true, 31, !number, &mut steps)?;
    push_more(number, &mut steps)?;
    Ok(steps)
}
