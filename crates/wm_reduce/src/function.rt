// The functions of a module, as calls see them.
ghost use Rattle.std.specs.Prelude.{◌≡◌, ◌++◌, filter_map, replicate, OnOk, length, slice_get};
ghost use Rattle.wm_ast.specs.Store.{callee_of, zero_of};
ghost use Rattle.wm_ast.specs.Types.{run_types};
ghost use Rattle.wm_ast.specs.Step.{checked, target_of};
ghost use Rattle.wm_reduce.specs.steps.Seen.{IsFunction, seen_target};

use mc_nbt::{Memory, Value};
use wm_ast::{Func, FuncType, Instr, Module, Run, TrapKind, ValType, are_same};

/// A function, for its callers.
#[derive(Clone, Copy)]
pub(crate) struct Function<'a> {
    /// How many arguments it takes.
    pub(crate) takes: usize,
    /// What it gives, where it gives something.
    pub(crate) gives: Option<ValType>,
    /// Its own locals.
    pub(crate) locals: &'a [Run],
    pub(crate) body: &'a [Instr],
}

/// The function of this index. `None` exactly where there is none, or its type isn't there or isn't valid.
pub(crate) fn find_function(m: &Module, index: u32) -> Option<Function<'_>>
    ensures { IsFunction result (callee_of m.now index) }
{
    let func = m.funcs.get(index as usize)?;
    let ty = m.types.get(func.kind as usize)?;
    match ty.results.as_slice() {
        [] => Some(function_of(func, ty, None)),
        [gives] => Some(function_of(func, ty, Some(*gives))),
        _ => None,
    }
}

// A function of this type and with this result.
fn function_of<'a>(func: &'a Func, ty: &'a FuncType, gives: Option<ValType>) -> Function<'a>
    ensures takes { result.takes ≡ length ty.now.params }
    ensures gives { result.gives ≡ gives }
    ensures locals { result.locals.now ≡ func.now.locals }
    ensures body { result.body.now ≡ func.now.body }
{
    Function {
        takes: ty.params.len(),
        gives,
        locals: func.locals.as_slice(),
        body: func.body.as_slice(),
    }
}

/// Adds the zeros with which a function's own locals begin.
pub(crate) fn add_zeros(locals: &mut Vec<Value>, runs: &[Run]) -> Result<(), Memory>
    ensures { OnOk result (locals.new.items ≡ locals.old.items ++ filter_map zero_of (run_types runs.now)) }
{
    for run in runs {
        add_run(locals, *run)?;
    }
    Ok(())
}

// Adds the zeros of a run of locals.
fn add_run(locals: &mut Vec<Value>, run: Run) -> Result<(), Memory>
    ensures { OnOk result (locals.new.items ≡ locals.old.items ++ filter_map zero_of (replicate run.count run.ty)) }
{
    match run.ty {
        ValType::I32 => add_values(locals, Value::I32(0), run.count),
        ValType::I64 => add_values(locals, Value::I64(0), run.count),
        ValType::F32 => Ok(()),
        ValType::F64 => Ok(()),
    }
}

fn add_values(locals: &mut Vec<Value>, value: Value, count: u32) -> Result<(), Memory>
    ensures { OnOk result (locals.new.items ≡ locals.old.items ++ replicate count value) }
{
    locals.resize(locals.len() + count as usize, value)?;
    Ok(())
}

/// What an element of the table leads to.
pub(crate) enum Target {
    Function(u32),
    Refused(TrapKind),
    /// The type or the function isn't there.
    Unknown,
}

/// What the element at an index of the table leads to, for a call of the type of the index `ty`.
pub(crate) fn find_target(m: &Module, table: &[Option<u32>], ty: u32, index: u32) -> Target
    ensures { seen_target result ≡ target_of m.now (slice_get m.now.types ty) (slice_get table.now index) }
{
    let Some(wanted) = m.types.get(ty as usize) else {
        return Target::Unknown;
    };
    match table.get(index as usize) {
        None => Target::Refused(TrapKind::UndefinedElement),
        Some(None) => Target::Refused(TrapKind::UninitializedElement),
        Some(Some(func)) => checked(m, wanted, *func),
    }
}

// A function of the table, where it is there and has this type.
fn checked(m: &Module, wanted: &FuncType, index: u32) -> Target
    ensures { seen_target result ≡ checked m.now wanted.now index (slice_get m.now.funcs index) }
{
    let Some(func) = m.funcs.get(index as usize) else {
        return Target::Unknown;
    };
    let Some(found) = m.types.get(func.kind as usize) else {
        return Target::Unknown;
    };
    if are_same(found.params.as_slice(), wanted.params.as_slice())
        && are_same(found.results.as_slice(), wanted.results.as_slice())
    {
        Target::Function(index)
    } else {
        Target::Refused(TrapKind::TypeMismatch)
    }
}
