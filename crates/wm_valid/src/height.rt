// The height of a typed body.
ghost use Rattle.std.specs.Prelude.{◌≡◌, ◌+◌, ◌≤◌, max, length};
ghost use Rattle.wm_ast.specs.Profile.{op_and_inside, all_ops};
ghost use Rattle.wm_ast.specs.declared.limit.TheConstants.{MAX_INSTRUCTIONS};
ghost use Rattle.wm_ast.specs.View.{op_of, code_of};
ghost use Rattle.wm_valid.specs.Valid.{AllItemsValid};
ghost use Rattle.wm_valid.specs.ScopeView.{made, body_of};
ghost use Rattle.wm_valid.specs.PlaceReading.{counted, op_height, code_height};

use crate::rule::{Change, change_of};
use crate::scope::Scope;
use wm_ast::Instr;

/// The greatest number of operands over which a reached instruction may stand.
pub const MAX_HEIGHT: u32 = 1024;

/// The greatest number of operands over which a reached instruction of the sequence stands, where so many stand at its
/// start. Each instruction adds one operand at most.
#[cycle(height)]
pub(crate) fn code_height(scope: &Scope<'_>, code: &[Instr], operands: usize) -> usize
    requires valid { AllItemsValid scope.now.module.now }
    requires room { operands + length (all_ops (code_of code.now)) ≤ MAX_INSTRUCTIONS }
    ensures { result ≡ code_height (code_of code.now) (body_of scope.now) operands }
{
    let mut greatest = 0;
    let mut operands = operands;
    for instr in code {
        let inside = inner_height(scope, instr, operands);
        greatest = greater(greatest, greater(operands, inside));
        let Some(change) = change_of(instr, scope) else {
            return greatest;
        };
        operands = count_after(change, operands);
    }
    greatest
}

// The same of what is inside an instruction.
#[cycle(height)]
fn inner_height(scope: &Scope<'_>, instr: &Instr, operands: usize) -> usize
    requires valid { AllItemsValid scope.now.module.now }
    requires room { operands + length (op_and_inside (op_of instr.now)) ≤ MAX_INSTRUCTIONS }
    ensures { result ≡ op_height (op_of instr.now) (body_of scope.now) operands }
{
    match instr {
        Instr::Block { body, .. } => code_height(scope, body.as_slice(), operands),
        Instr::Loop { body, .. } => code_height(scope, body.as_slice(), operands),
        Instr::If { yes, no, .. } => {
            let left = operands.saturating_sub(1);
            let first = code_height(scope, yes.as_slice(), left);
            let second = code_height(scope, no.as_slice(), left);
            greater(first, second)
        }
        _ => 0,
    }
}

// How many operands there are after a change.
#[tactic(auto, using(crate::proofs::ChangeLaws::alike_long))]
fn count_after(change: Change<'_>, operands: usize) -> usize
    requires one { length change.gives.now ≤ 1 }
    requires room { operands ≤ MAX_INSTRUCTIONS }
    ensures { result ≡ counted (made change.entry) operands }
{
    operands.saturating_sub(change.takes) + change.gives.len()
}

fn greater(first: usize, second: usize) -> usize
    ensures { result ≡ max first second }
{
    if first < second { second } else { first }
}
