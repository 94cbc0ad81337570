// Shifts and rotations of the number in `#a` by a constant.
ghost use Rattle.std.specs.Prelude.{◌≡◌, ◌<◌, ◌≤◌, IfOk, codes, if◌then◌else◌};
ghost use Rattle.mc_cmd.specs.Command.{add, multiply};
ghost use Rattle.cc_line.specs.View.{scratch_text, step_view, steps_view};
ghost use Rattle.cc_bits.specs.Line as line;
ghost use Rattle.cc_known.specs.Shift as spec;

use crate::line::{rest, sets_power};
use cc_bits::{joined, makes, sets, where_in};
use cc_line::{Act, Scratch, Spot, Step};
use mc_cmd::{Op, Range};
use mc_nbt::Memory;
use std::alloc::Global;

/// A shift to the left.
///
/// # Errors
///
/// `Memory` where there is no room for the steps.
pub(crate) fn shl(alloc: Global, count: u32) -> Result<Vec<Step>, Memory>
    requires { count < 32 }
    ensures { IfOk result (λ v. steps_view v.items ≡ spec.shl_steps count) }
{
    if count == 0 {
        return Ok(Vec::new(alloc));
    }
    let steps = [
        sets_power(count),
        makes(Scratch::A, Op::Multiply, Scratch::M),
    ];
    Ok(Vec::from_slice(alloc, &steps)?)
}

/// A shift to the right with the sign.
///
/// # Errors
///
/// `Memory` where there is no room for the steps.
pub(crate) fn shr_s(alloc: Global, count: u32) -> Result<Vec<Step>, Memory>
    requires { count < 32 }
    ensures { IfOk result (λ v. steps_view v.items ≡ spec.shr_s_steps count) }
{
    if count == 0 {
        return Ok(Vec::new(alloc));
    }
    if count == 31 {
        let twice = [
            sets_power(30),
            makes(Scratch::A, Op::Divide, Scratch::M),
            sets(Scratch::M, 2),
            makes(Scratch::A, Op::Divide, Scratch::M),
        ];
        return Ok(Vec::from_slice(alloc, &twice)?);
    }
    let steps = [sets_power(count), makes(Scratch::A, Op::Divide, Scratch::M)];
    Ok(Vec::from_slice(alloc, &steps)?)
}

// The sign's bit alone.
fn sign_bit(of: Scratch) -> [Step; 2]
    ensures { steps_view result ≡ spec.sign_bit_steps (scratch_text of) }
{
    let spot = Spot::Scratch(of);
    [
        where_in(Range::From(0), of, Act::SetSpot { spot, value: 0 }),
        where_in(Range::To(-1), of, Act::SetSpot { spot, value: 1 }),
    ]
}

// A shift of a score to the right with zeros, by 1 to 31.
fn shr_u_on(alloc: Global, of: Scratch, count: u32) -> Result<Vec<Step>, Memory>
    requires low { 1 ≤ count }
    requires high { count < 32 }
    ensures { IfOk result (λ v. steps_view v.items ≡ spec.shr_u_on (scratch_text of) count) }
{
    if count == 31 {
        return Ok(Vec::from_slice(alloc, &sign_bit(of))?);
    }
    let divided = [sets_power(count), makes(of, Op::Divide, Scratch::M)];
    joined(alloc, &[&divided, &rest(32 - count, of)])
}

/// A shift to the right with zeros.
///
/// # Errors
///
/// `Memory` where there is no room for the steps.
pub(crate) fn shr_u(alloc: Global, count: u32) -> Result<Vec<Step>, Memory>
    requires { count < 32 }
    ensures { IfOk result (λ v. steps_view v.items ≡ spec.shr_u_steps count) }
{
    if count == 0 {
        return Ok(Vec::new(alloc));
    }
    shr_u_on(alloc, Scratch::A, count)
}

// What stays is `#a` twice, or by the factor in `#m`.
fn stays(once: bool) -> Step
    ensures { step_view result ≡ line.makes (codes "#a")
        (if once then add else multiply)
        (if once then codes "#a" else codes "#m") }
{
    if once {
        makes(Scratch::A, Op::Add, Scratch::A)
    } else {
        makes(Scratch::A, Op::Multiply, Scratch::M)
    }
}

/// A rotation to the left.
///
/// # Errors
///
/// `Memory` where there is no room for the steps.
pub(crate) fn rotl(alloc: Global, count: u32) -> Result<Vec<Step>, Memory>
    requires { count < 32 }
    ensures { IfOk result (λ v. steps_view v.items ≡ spec.rotl_steps count) }
{
    if count == 0 {
        return Ok(Vec::new(alloc));
    }
    let copy = [makes(Scratch::C, Op::Assign, Scratch::A)];
    let comes_in = shr_u_on(alloc, Scratch::C, 32 - count)?;
    let together = [stays(count == 1), makes(Scratch::A, Op::Add, Scratch::C)];
    joined(alloc, &[&copy, comes_in.as_slice(), &together])
}
