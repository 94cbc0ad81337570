// The operands at a place of a typed body.
ghost use Rattle.std.specs.Prelude.{◌*◌, reverse, Option, Some, None, IfOk};
ghost use Rattle.wm_ast.specs.View.{code_of};
ghost use Rattle.wm_valid.specs.Place.{AreKinds};
ghost use Rattle.wm_valid.specs.Valid.{Valid};
ghost use Rattle.wm_valid.specs.ScopeView.{body_of};
ghost use Rattle.wm_valid.specs.steps.Found.{Came};
ghost use Rattle.wm_valid.specs.PlaceReading.{run, operands_at, continued};

use crate::rule::change_of;
use crate::scope::{Scope, scope_of};
use mc_nbt::Memory;
use std::alloc::Global;
use wm_ast::{Instr, Items, Module, ValType, ValTypes};

/// The operands at a place of a function's body, those under enclosing blocks included, the lowest first. `None` exactly
/// where there is no such function, or it has no such place, or the place isn't reached.
#[tactic(auto, using(crate::proofs::KindLaws::are_kinds, crate::proofs::KindLaws::no_type))]
pub(crate) fn kinds(
    alloc: Global,
    m: &Module,
    func: u32,
    place: &[u32],
) -> Result<Option<ValTypes>, Memory>
    requires { Valid m.now }
    ensures { IfOk result (λ found. AreKinds m.now func place.now found) }
{
    let Some(func) = m.funcs.get(func as usize) else {
        return Ok(None);
    };
    let Some(scope) = scope_of(alloc, m, func)? else {
        unreachable!()
    };
    let mut operands = Vec::new(alloc);
    if find_operands(&scope, func.body.as_slice(), place, &mut operands)? {
        Ok(Some(Items::from_vec(operands)))
    } else {
        Ok(None)
    }
}

// Changes operands, which stand at the start of a sequence, to those at a place in it, the last at the end. Gives
// false exactly where there is no such place or it isn't reached.
//
// The place is a path: the position of an instruction in each sequence, after that of an `if` 0 for its first arm or
// 1 for its second, and last a position in the innermost sequence.
#[cycle(place)]
fn find_operands(
    scope: &Scope<'_>,
    code: &[Instr],
    place: &[u32],
    operands: &mut Vec<ValType>,
) -> Result<bool, Memory>
    ensures { IfOk result (λ there. Came there (operands_at place.now (code_of code.now) (body_of scope.now) (reverse operands.old.items)) (reverse operands.new.items)) }
{
    let Some((at, path)) = place.split_first() else {
        return Ok(false);
    };
    let at = *at as usize;
    if at > code.len() {
        return Ok(false);
    }
    let (front, rest) = code.split_at(at);
    if !run(scope, front, operands)? {
        return Ok(false);
    }
    go_on(scope, rest, path, operands)
}

// Goes on from the first of these instructions.
#[cycle(place)]
fn go_on(
    scope: &Scope<'_>,
    rest: &[Instr],
    path: &[u32],
    operands: &mut Vec<ValType>,
) -> Result<bool, Memory>
    ensures { IfOk result (λ there. Came there (continued path.now (code_of rest.now) (body_of scope.now) (reverse operands.old.items)) (reverse operands.new.items)) }
{
    let [arm, deeper @ ..] = path else {
        return Ok(true);
    };
    match rest {
        [Instr::Block { body, .. }, ..] => find_operands(scope, body.as_slice(), path, operands),
        [Instr::Loop { body, .. }, ..] => find_operands(scope, body.as_slice(), path, operands),
        [Instr::If { yes, no, .. }, ..] => {
            operands.pop();
            match *arm {
                0 => find_operands(scope, yes.as_slice(), deeper, operands),
                1 => find_operands(scope, no.as_slice(), deeper, operands),
                _ => Ok(false),
            }
        }
        _ => Ok(false),
    }
}

// Changes operands as these instructions do. Gives false exactly where a jump is among them.
fn run(scope: &Scope<'_>, code: &[Instr], operands: &mut Vec<ValType>) -> Result<bool, Memory>
    ensures { IfOk result (λ there. Came there (run (code_of code.now) (body_of scope.now) (reverse operands.old.items)) (reverse operands.new.items)) }
{
    for instr in code {
        let Some(change) = change_of(instr, scope) else {
            return Ok(false);
        };
        change.apply_to(operands)?;
    }
    Ok(true)
}
