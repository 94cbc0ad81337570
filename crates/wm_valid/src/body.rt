// Function bodies: sections 3.3 and 3.4.1 of the WebAssembly Core Specification, edition 1.0.
ghost use Rattle.std.specs.Prelude.{◌≡◌, ◌∷◌, reverse, OnOk, IfErr};
ghost use Rattle.wm_ast.specs.View.{op_of, code_of};
ghost use Rattle.wm_ast.specs.Profile.{function_code};
ghost use Rattle.wm_valid.specs.InRange.{OpInRange, CodeInRange, FunctionsInRange};
ghost use Rattle.wm_valid.specs.Typing.{AllTyped};
ghost use Rattle.wm_valid.specs.steps.Checking.{bare, tabled, called_by_table, ended, simple_op, check_op, check_code};
ghost use Rattle.wm_valid.specs.steps.Found.{Finds, shape, labels_of, context, TypesFunction, IsBodyFault};

use crate::fault::Fault;
use crate::operands::Operands;
use crate::rule::{each_takes, indirect, label, signature};
use crate::scope::{Scope, scope_of};
use crate::signature::results;
use std::alloc::Global;
use wm_ast::{Func, Instr, Module, ValType};

/// Why the bodies of a module were not all typed.
#[derive(Clone, Copy, Debug, PartialEq, Eq)]
pub(crate) enum BodyFault {
    /// This is the first function that has no typing.
    Untyped { func: u64 },
    /// There was no room for the operands.
    Memory,
}

/// Whether the body of each function has a typing.
///
/// # Errors
///
/// `Untyped` exactly where a function has none, with the first such, and `Memory`.
pub(crate) fn check_bodies(alloc: Global, m: &Module) -> Result<(), BodyFault>
    ensures typed { OnOk result (AllTyped m.now) }
    ensures range { OnOk result (FunctionsInRange m.now) }
    ensures refused { IfErr result (λ e. IsBodyFault e m.now) }
{
    for (func, f) in m.funcs.as_slice().iter().enumerate() {
        match check_function(alloc, m, f) {
            Ok(()) => {}
            Err(Fault::Untyped) => return Err(BodyFault::Untyped { func: func as u64 }),
            Err(Fault::Memory) => return Err(BodyFault::Memory),
        }
    }
    Ok(())
}

// Whether a function of the module has a typing.
fn check_function(alloc: Global, m: &Module, f: &Func) -> Result<(), Fault>
    ensures typed { TypesFunction result m.now f.now }
    ensures range { OnOk result (CodeInRange (function_code f.now)) }
{
    let scope = scope_of(alloc, m, f)?.ok_or(Fault::Untyped)?;
    let mut labels = Vec::new(alloc);
    check_body(
        alloc,
        f.body.as_slice(),
        &scope,
        scope.results,
        scope.results,
        &mut labels,
    )
}

// A body under a label of its own, which gives these types at its end.
#[cycle(check)]
fn check_body<'a>(
    alloc: Global,
    body: &[Instr],
    scope: &Scope<'a>,
    label: &'a [ValType],
    gives: &[ValType],
    labels: &mut Vec<&'a [ValType]>,
) -> Result<(), Fault>
    ensures exact { Finds (λ _. tt) result (ended (reverse gives.now) (check_code (code_of body.now) (context scope.now (reverse label.now ∷ labels_of labels.old.items)) bare)) }
    ensures same { OnOk result (labels.new.items ≡ labels.old.items) }
    ensures range { OnOk result (CodeInRange (code_of body.now)) }
{
    labels.push(label)?;
    let mut operands = Operands::new(alloc);
    check_code(alloc, body, scope, labels, &mut operands)?;
    labels.pop();
    operands.end(gives)
}

// The instructions of a body, over these operands.
#[cycle(check)]
fn check_code<'a>(
    alloc: Global,
    code: &[Instr],
    scope: &Scope<'a>,
    labels: &mut Vec<&'a [ValType]>,
    operands: &mut Operands,
) -> Result<(), Fault>
    ensures exact { Finds (λ _. shape operands.new) result (check_code (code_of code.now) (context scope.now (labels_of labels.old.items)) (shape operands.old)) }
    ensures same { OnOk result (labels.new.items ≡ labels.old.items) }
    ensures range { OnOk result (CodeInRange (code_of code.now)) }
{
    for instr in code {
        check_op(alloc, instr, scope, labels, operands)?;
    }
    Ok(())
}

// An instruction over these operands.
#[cycle(check)]
fn check_op<'a>(
    alloc: Global,
    instr: &Instr,
    scope: &Scope<'a>,
    labels: &mut Vec<&'a [ValType]>,
    operands: &mut Operands,
) -> Result<(), Fault>
    ensures exact { Finds (λ _. shape operands.new) result (check_op (op_of instr.now) (context scope.now (labels_of labels.old.items)) (shape operands.old)) }
    ensures same { OnOk result (labels.new.items ≡ labels.old.items) }
    ensures range { OnOk result (OpInRange (op_of instr.now)) }
{
    match instr {
        Instr::Block { ty, body } => {
            let gives = results(*ty);
            check_body(alloc, body.as_slice(), scope, gives, gives, labels)?;
            operands.push_all(gives)
        }
        Instr::Loop { ty, body } => {
            let gives = results(*ty);
            let again = results(None);
            check_body(alloc, body.as_slice(), scope, again, gives, labels)?;
            operands.push_all(gives)
        }
        Instr::If { ty, yes, no } => {
            let gives = results(*ty);
            operands.take(ValType::I32)?;
            check_body(alloc, yes.as_slice(), scope, gives, gives, labels)?;
            check_body(alloc, no.as_slice(), scope, gives, gives, labels)?;
            operands.push_all(gives)
        }
        _ => check_simple(instr, scope, labels, operands),
    }
}

// An instruction that is no block.
fn check_simple<'a>(
    instr: &Instr,
    scope: &Scope<'a>,
    labels: &[&'a [ValType]],
    operands: &mut Operands,
) -> Result<(), Fault>
    ensures exact { Finds (λ _. shape operands.new) result (simple_op (op_of instr.now) (context scope.now (labels_of labels.now)) (shape operands.old)) }
    ensures range { OnOk result (OpInRange (op_of instr.now)) }
{
    match instr {
        Instr::Unreachable => {
            operands.forget();
            Ok(())
        }
        Instr::Br(target) => {
            let types = label(labels, *target).ok_or(Fault::Untyped)?;
            operands.branch(types)
        }
        Instr::BrIf(target) => {
            let types = label(labels, *target).ok_or(Fault::Untyped)?;
            operands.take(ValType::I32)?;
            operands.take_all(types)?;
            operands.push_all(types)
        }
        Instr::BrTable {
            labels: targets,
            last,
        } => check_table(labels, targets.as_slice(), *last, operands),
        Instr::Return => operands.branch(scope.results),
        Instr::CallIndirect(ty) => check_indirect(scope.module, *ty, operands),
        Instr::DropOne => {
            operands.take_any()?;
            Ok(())
        }
        Instr::Select => operands.select(),
        _ => operands.apply(signature(instr, scope).ok_or(Fault::Untyped)?),
    }
}

// A branch to one of these labels or to the default.
fn check_table(
    labels: &[&[ValType]],
    targets: &[u32],
    last: u32,
    operands: &mut Operands,
) -> Result<(), Fault>
    ensures { Finds (λ _. shape operands.new) result (tabled targets.now last (labels_of labels.now) (shape operands.old)) }
{
    let types = label(labels, last).ok_or(Fault::Untyped)?;
    if !each_takes(labels, targets, types) {
        return Err(Fault::Untyped);
    }
    operands.take(ValType::I32)?;
    operands.branch(types)
}

// A call through the table, of a function of the type of this index.
fn check_indirect(m: &Module, ty: u32, operands: &mut Operands) -> Result<(), Fault>
    ensures { Finds (λ _. shape operands.new) result (called_by_table m.now.tables m.now.types ty (shape operands.old)) }
{
    let signature = indirect(m, ty).ok_or(Fault::Untyped)?;
    operands.take(ValType::I32)?;
    operands.apply(signature)
}
