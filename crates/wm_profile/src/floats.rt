ghost use Rattle.std.specs.Prelude.{◌≡◌, position, option_map};
ghost use Rattle.std.specs.List.{list_any};
ghost use Rattle.std.specs.Result.{result_err};
ghost use Rattle.wm_ast.specs.Profile.{is_float as is_float_type, is_float_run, has_float_type, has_float_import, has_float_global, has_float_function};
ghost use Rattle.wm_profile.specs.Cause.{at, first_float, first_float_after_globals, float_at};

use crate::ProfileFault;
use crate::expression::first_with_float;
use crate::instructions::{has_float, is_float};
use wm_ast::{Func, FuncType, Global, Import, Imported, Item, Module, Run, ValType};

/// That there are no floats.
///
/// # Errors
///
/// `Float` exactly where there are: the first item that has one.
pub(crate) fn check_floats(m: &Module) -> Result<(), ProfileFault>
    ensures { result_err result ≡ option_map float_at (first_float m.now) }
{
    no_float(Item::Types, type_with_float(m.types.as_slice()))?;
    no_float(Item::Imports, import_with_float(m.imports.as_slice()))?;
    no_float(Item::Globals, global_with_float(m.globals.as_slice()))?;
    check_floats_after_globals(m)
}

fn check_floats_after_globals(m: &Module) -> Result<(), ProfileFault>
    ensures { result_err result ≡ option_map float_at (first_float_after_globals m.now) }
{
    no_float(Item::Elements, first_with_float(m.elems.as_slice()))?;
    no_float(Item::Datas, first_with_float(m.datas.as_slice()))?;
    no_float(Item::Functions, function_with_float(m.funcs.as_slice()))
}

fn no_float(item: Item, first: Option<usize>) -> Result<(), ProfileFault>
    ensures { result_err result ≡ option_map float_at (at item first) }
{
    match first {
        None => Ok(()),
        Some(index) => Err(ProfileFault::Float {
            item,
            index: index as u64,
        }),
    }
}

fn type_with_float(types: &[FuncType]) -> Option<usize>
    ensures { result ≡ position has_float_type types.now }
{
    types.iter().position(|ty| type_has_float(ty))
}

fn type_has_float(ty: &FuncType) -> bool
    ensures { result ≡ has_float_type ty.now }
{
    types_have_float(ty.params.as_slice()) || types_have_float(ty.results.as_slice())
}

fn types_have_float(types: &[ValType]) -> bool
    ensures { result ≡ list_any is_float_type types.now }
{
    types.iter().any(|ty| is_float(*ty))
}

fn import_with_float(imports: &[Import]) -> Option<usize>
    ensures { result ≡ position has_float_import imports.now }
{
    imports.iter().position(|import| import_has_float(import))
}

fn import_has_float(import: &Import) -> bool
    ensures { result ≡ has_float_import import.now }
{
    match import.what {
        Imported::Global { ty, .. } => is_float(ty),
        _ => false,
    }
}

fn global_with_float(globals: &[Global]) -> Option<usize>
    ensures { result ≡ position has_float_global globals.now }
{
    globals.iter().position(|global| global_has_float(global))
}

fn global_has_float(global: &Global) -> bool
    ensures { result ≡ has_float_global global.now }
{
    is_float(global.ty) || has_float(global.init.as_slice())
}

fn function_with_float(funcs: &[Func]) -> Option<usize>
    ensures { result ≡ position has_float_function funcs.now }
{
    funcs.iter().position(|func| function_has_float(func))
}

fn function_has_float(func: &Func) -> bool
    ensures { result ≡ has_float_function func.now }
{
    runs_have_float(func.locals.as_slice()) || has_float(func.body.as_slice())
}

// A run of no locals has its type all the same.
fn runs_have_float(runs: &[Run]) -> bool
    ensures { result ≡ list_any is_float_run runs.now }
{
    runs.iter().any(|run| is_float(run.ty))
}
