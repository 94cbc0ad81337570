// The steps of each operation with a constant.
ghost use Rattle.std.specs.Prelude.{◌≡◌, IfOk, option_map};
ghost use Rattle.std.specs.Int.{trailing_zeros, w32};
ghost use Rattle.wm_ast.specs.declared.operation.NumOp.TheVariants.{I32GeU, I32GtU, I32LeU, I32LtU};
ghost use Rattle.cc_line.specs.View.{steps_view};
ghost use Rattle.cc_known.specs.Divide.{div_s_steps, rem_s_steps, rem_u_steps};
ghost use Rattle.cc_known.specs.Operation as spec;
ghost use Rattle.cc_known.specs.Shift.{shr_u_steps};

use crate::compare::{is_below, is_not_below};
use crate::divide::{div_s, rem_s, rem_u};
use crate::mask::{and, or, xor};
use crate::shift::{rotl, shl, shr_s, shr_u};
use cc_line::Step;
use mc_nbt::Memory;
use std::alloc::Global;
use wm_ast::NumOp;

/// The steps of an operation with this number for its second operand, if there are any.
///
/// # Errors
///
/// `Memory` where there is no room for them.
pub(crate) fn core(alloc: Global, op: NumOp, number: u32) -> Result<Option<Vec<Step>>, Memory>
    ensures { IfOk result (λ o. option_map (λ v. steps_view v.items) o ≡ spec.known_core op number) }
{
    match op {
        NumOp::I32And => Ok(few(and(alloc, number)?)),
        NumOp::I32Or => Ok(few(or(alloc, number)?)),
        NumOp::I32Xor => Ok(few(xor(alloc, number)?)),
        NumOp::I32Shl => Ok(Some(shl(alloc, number % 32)?)),
        NumOp::I32ShrS => Ok(Some(shr_s(alloc, number % 32)?)),
        NumOp::I32ShrU => Ok(Some(shr_u(alloc, number % 32)?)),
        NumOp::I32Rotl => Ok(Some(rotl(alloc, number % 32)?)),
        NumOp::I32Rotr => Ok(Some(rotl(alloc, (32 - number % 32) % 32)?)),
        NumOp::I32DivU => quotient_u(alloc, number),
        NumOp::I32RemU => rest_u(alloc, number),
        NumOp::I32DivS => quotient_s(alloc, number),
        NumOp::I32RemS => rest_s(alloc, number),
        NumOp::I32LtU => below(alloc, number),
        NumOp::I32GeU => not_below(alloc, number),
        NumOp::I32LeU => up_to(alloc, number),
        NumOp::I32GtU => above(alloc, number),
        _ => Ok(None),
    }
}

// Steps, where they are few.
fn few(steps: Vec<Step>) -> Option<Vec<Step>>
    ensures { option_map (λ v. steps_view v.items) result ≡ spec.if_few (steps_view steps.items) }
{
    if steps.len() <= 36 { Some(steps) } else { None }
}

// ---- divisions

fn is_power(number: u32) -> bool
    ensures { result ≡ spec.is_power number }
{
    number != 0 && (1u32 << number.trailing_zeros()) == number
}

fn quotient_u(alloc: Global, number: u32) -> Result<Option<Vec<Step>>, Memory>
    ensures { IfOk result (λ o. option_map (λ v. steps_view v.items) o
        ≡ spec.only (spec.is_power number) (shr_u_steps (trailing_zeros w32 number))) }
{
    if is_power(number) {
        Ok(Some(shr_u(alloc, number.trailing_zeros())?))
    } else {
        Ok(None)
    }
}

fn rest_u(alloc: Global, number: u32) -> Result<Option<Vec<Step>>, Memory>
    ensures { IfOk result (λ o. option_map (λ v. steps_view v.items) o
        ≡ spec.only (spec.is_power number) (rem_u_steps (trailing_zeros w32 number))) }
{
    if is_power(number) {
        Ok(Some(rem_u(alloc, number.trailing_zeros())?))
    } else {
        Ok(None)
    }
}

fn is_positive(number: u32) -> bool
    ensures { result ≡ spec.is_positive number }
{
    number > 0 && number < 0x8000_0000
}

fn quotient_s(alloc: Global, number: u32) -> Result<Option<Vec<Step>>, Memory>
    ensures { IfOk result (λ o. option_map (λ v. steps_view v.items) o
        ≡ spec.only (spec.is_positive number) (div_s_steps number)) }
{
    if is_positive(number) {
        Ok(Some(Vec::from_slice(alloc, &div_s(number))?))
    } else {
        Ok(None)
    }
}

fn rest_s(alloc: Global, number: u32) -> Result<Option<Vec<Step>>, Memory>
    ensures { IfOk result (λ o. option_map (λ v. steps_view v.items) o
        ≡ spec.only (spec.is_positive number) (rem_s_steps number)) }
{
    if is_positive(number) {
        Ok(Some(Vec::from_slice(alloc, &rem_s(number))?))
    } else {
        Ok(None)
    }
}

// ---- comparisons

fn below(alloc: Global, number: u32) -> Result<Option<Vec<Step>>, Memory>
    ensures { IfOk result (λ o. option_map (λ v. steps_view v.items) o
        ≡ spec.known_core I32LtU number) }
{
    if number > 0 {
        Ok(Some(Vec::from_slice(alloc, &is_below(number))?))
    } else {
        Ok(None)
    }
}

fn not_below(alloc: Global, number: u32) -> Result<Option<Vec<Step>>, Memory>
    ensures { IfOk result (λ o. option_map (λ v. steps_view v.items) o
        ≡ spec.known_core I32GeU number) }
{
    if number > 0 {
        Ok(Some(Vec::from_slice(alloc, &is_not_below(number))?))
    } else {
        Ok(None)
    }
}

fn up_to(alloc: Global, number: u32) -> Result<Option<Vec<Step>>, Memory>
    ensures { IfOk result (λ o. option_map (λ v. steps_view v.items) o
        ≡ spec.known_core I32LeU number) }
{
    if number < u32::MAX {
        Ok(Some(Vec::from_slice(alloc, &is_below(number + 1))?))
    } else {
        Ok(None)
    }
}

fn above(alloc: Global, number: u32) -> Result<Option<Vec<Step>>, Memory>
    ensures { IfOk result (λ o. option_map (λ v. steps_view v.items) o
        ≡ spec.known_core I32GtU number) }
{
    if number < u32::MAX {
        Ok(Some(Vec::from_slice(alloc, &is_not_below(number + 1))?))
    } else {
        Ok(None)
    }
}
