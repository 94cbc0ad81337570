// What function bodies may name.
ghost use Rattle.std.specs.Prelude.{◌≡◌, ◌++◌, replicate, IfOk};
ghost use Rattle.wm_ast.specs.Types.{run_types};
ghost use Rattle.wm_valid.specs.ScopeView.{ScopeFound};

use mc_nbt::Memory;
use std::alloc::Global;
use wm_ast::{Func, Module, Run, ValType};

/// What the body of a function may name, but for labels.
#[derive(Debug, Drop)]
pub struct Scope<'a> {
    /// The module.
    pub module: &'a Module,
    /// The types of its parameters and then of its own locals.
    pub locals: Vec<ValType>,
    /// The types of the results, the last at the end.
    pub results: &'a [ValType],
}

/// What the body of a function of the module may name. `None` exactly where the index of its type names no type.
///
/// # Errors
///
/// `Memory` where there is no room for the types of its locals.
pub fn scope_of<'a>(alloc: Global, m: &'a Module, func: &Func) -> Result<Option<Scope<'a>>, Memory>
    ensures { IfOk result (λ found. ScopeFound found m.now func.now) }
{
    let Some(ty) = m.types.get(func.kind as usize) else {
        return Ok(None);
    };
    let locals = locals(alloc, ty.params.as_slice(), func.locals.as_slice())?;
    Ok(Some(Scope {
        module: m,
        locals,
        results: ty.results.as_slice(),
    }))
}

// The types of a function's parameters and then of its own locals.
fn locals(alloc: Global, params: &[ValType], runs: &[Run]) -> Result<Vec<ValType>, Memory>
    ensures { IfOk result (λ types. types.items ≡ params.now ++ run_types runs.now) }
{
    let mut types = Vec::new(alloc);
    types.extend_from_slice(params)?;
    for run in runs {
        add_run(&mut types, *run)?;
    }
    Ok(types)
}

// Adds the types of a run of locals.
fn add_run(types: &mut Vec<ValType>, run: Run) -> Result<(), Memory>
    ensures { IfOk result (λ _. types.new.items ≡ types.old.items ++ replicate run.count run.ty) }
{
    types.resize(types.len() + run.count as usize, run.ty)?;
    Ok(())
}
