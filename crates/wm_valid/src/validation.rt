ghost use Rattle.std.specs.Prelude.{◌≡◌, ◌≢◌, ◌≤◌, IfOk, IfErr, length, Some, Result};
ghost use Rattle.wm_ast.specs.Profile.{InProfile, all_ops};
ghost use Rattle.wm_ast.specs.View.{code_of};
ghost use Rattle.wm_ast.specs.declared.limit.TheConstants.{MAX_INSTRUCTIONS};
ghost use Rattle.wm_ast.specs.declared.module.Module.{Module as Modules};
ghost use Rattle.wm_valid.specs.declared.valid_fault.ValidFault.{ValidFault as Faults};
ghost use Rattle.wm_valid.specs.declared.valid_fault.ValidFault.TheVariants as faults;
ghost use Rattle.wm_valid.specs.Checked.{AreHeights};
ghost use Rattle.wm_valid.specs.Height.{IsHeight, Low};
ghost use Rattle.wm_valid.specs.InRange.{HasNumbersInRange};
ghost use Rattle.wm_valid.specs.Typing.{HasTyping};
ghost use Rattle.wm_valid.specs.Valid.{AllItemsValid, Valid};
ghost use Rattle.wm_valid.specs.ValidFault.{IsCause, IsValidated};

use crate::body::{BodyFault, check_bodies};
use crate::height::{MAX_HEIGHT, code_height};
use crate::item_check::first_invalid;
use crate::scope::scope_of;
use crate::typed::Typed;
use crate::valid_fault::ValidFault;
use mc_nbt::Memory;
use std::alloc::Global;
use wm_ast::{Func, Module};

/// Validates a module of the profile (3.4.10), and finds the heights of its functions. The module comes back on each
/// refusal.
///
/// # Errors
///
/// The first of these causes: `Item` exactly where an item isn't valid, `Body` exactly where all are and a function
/// has no typing, `Height` exactly where the module is valid and a function is higher than `MAX_HEIGHT`. `Memory` may
/// come at any point.
#[tactic(auto, using(crate::proofs::TypedLaws::is_typed, crate::proofs::AnswerLaws::no_cause))]
pub fn validate(alloc: Global, m: Module) -> Result<Typed, (Module, ValidFault)>
    requires { InProfile m }
    // Each answer tells what the module is. No two of them can be true of it: `validate_has_one_answer`.
    ensures answer { IsValidated m result }
    // A module that is valid and low is never refused.
    ensures only { Valid m → Low m → IfErr result (λ e. e.1 ≡ faults.Memory) }
{
    match check(alloc, &m) {
        Ok(heights) => Ok(Typed::new(m, heights)),
        Err(fault) => Err((m, fault)),
    }
}

/// Law: of the answers of `validate`, want of memory aside, at most one is true of the same module.
pub fn validate_has_one_answer()
    ensures { (m : Modules) (r s : Result Modules (Modules × Faults)) → IsValidated m r → IsValidated m s
        → IfErr r (λ e. e.1 ≢ faults.Memory) → IfErr s (λ e. e.1 ≢ faults.Memory) → r ≡ s }
{}

fn check(alloc: Global, m: &Module) -> Result<Vec<u32>, ValidFault>
    requires { InProfile m.now }
    ensures valid { IfOk result (λ hs. Valid m.now) }
    ensures heights { IfOk result (λ hs. AreHeights m.now (length m.now.funcs) hs.items) }
    ensures numbers { IfOk result (λ hs. HasNumbersInRange m.now) }
    ensures cause { IfErr result (λ e. IsCause e m.now) }
{
    if let Some((item, index)) = first_invalid(alloc, m)? {
        return Err(ValidFault::Item { item, index });
    }
    match check_bodies(alloc, m) {
        Ok(()) => heights(alloc, m),
        Err(BodyFault::Untyped { func }) => Err(ValidFault::Body { func }),
        Err(BodyFault::Memory) => Err(ValidFault::Memory),
    }
}

// The height of each function.
fn heights(alloc: Global, m: &Module) -> Result<Vec<u32>, ValidFault>
    requires in_profile { InProfile m.now }
    requires valid { Valid m.now }
    ensures heights { IfOk result (λ hs. AreHeights m.now (length m.now.funcs) hs.items) }
    ensures cause { IfErr result (λ e. IsCause e m.now) }
{
    let mut heights = Vec::new(alloc);
    for (func, f) in m.funcs.as_slice().iter().enumerate() {
        let found = height(alloc, m, f)?;
        if found > MAX_HEIGHT as usize {
            return Err(ValidFault::Height {
                func: func as u64,
                found: found as u64,
            });
        }
        heights.push(found as u32)?;
    }
    Ok(heights)
}

// The height of a function that has a typing.
#[tactic(auto, using(crate::proofs::TypedLaws::is_height))]
fn height(alloc: Global, m: &Module, func: &Func) -> Result<usize, Memory>
    requires typed { HasTyping m.now func.now }
    requires items { AllItemsValid m.now }
    requires short { length (all_ops (code_of func.now.body)) ≤ MAX_INSTRUCTIONS }
    ensures { IfOk result (λ found. IsHeight m.now func.now found) }
{
    let Some(scope) = scope_of(alloc, m, func)? else {
        unreachable!()
    };
    Ok(code_height(&scope, func.body.as_slice(), 0))
}
