// A module's own items behind those that are joined already.
ghost use Rattle.std.specs.Prelude.{◌≡◌, ◌++◌, OnOk, map};
ghost use Rattle.wm_join.specs.steps.Parts.{function_with, global_with, element_with, data_with, export_with};
ghost use Rattle.wm_join.specs.steps.Parts.{with_module};

use crate::numbers::Numbers;
use crate::parts::{data_with, element_with, export_with, function_with, global_with, type_copy};
use mc_nbt::Memory;
use std::alloc::Global;
use wm_ast::{
    Data, Datas, Elem, Elems, Export, Exports, Func, FuncType, FuncTypes, Funcs, Globals, Limits,
    LimitsList, Module,
};

/// Adds the items that the module defines, with these numbers.
pub(crate) fn add_module(
    alloc: Global,
    numbers: &Numbers,
    m: &Module,
    joined: &mut Module,
) -> Result<(), Memory>
    ensures { OnOk result (joined.new ≡ with_module numbers.now m.now joined.old) }
{
    add_types(alloc, m.types.as_slice(), &mut joined.types)?;
    add_functions(alloc, numbers, m.funcs.as_slice(), &mut joined.funcs)?;
    add_limits(m.tables.as_slice(), &mut joined.tables)?;
    add_limits(m.mems.as_slice(), &mut joined.mems)?;
    add_globals(alloc, numbers, m.globals.as_slice(), &mut joined.globals)?;
    add_elements(alloc, numbers, m.elems.as_slice(), &mut joined.elems)?;
    add_datas(alloc, numbers, m.datas.as_slice(), &mut joined.datas)
}

fn add_types(alloc: Global, types: &[FuncType], found: &mut FuncTypes) -> Result<(), Memory>
    ensures { OnOk result (found.new ≡ found.old ++ types.now) }
{
    for ty in types {
        found.push(type_copy(alloc, ty)?)?;
    }
    Ok(())
}

fn add_functions(
    alloc: Global,
    numbers: &Numbers,
    funcs: &[Func],
    found: &mut Funcs,
) -> Result<(), Memory>
    ensures { OnOk result (found.new ≡ found.old ++ map (function_with numbers.now) funcs.now) }
{
    for func in funcs {
        found.push(function_with(alloc, numbers, func)?)?;
    }
    Ok(())
}

fn add_limits(limits: &[Limits], found: &mut LimitsList) -> Result<(), Memory>
    ensures { OnOk result (found.new ≡ found.old ++ limits.now) }
{
    for size in limits {
        found.push(*size)?;
    }
    Ok(())
}

fn add_globals(
    alloc: Global,
    numbers: &Numbers,
    globals: &[wm_ast::Global],
    found: &mut Globals,
) -> Result<(), Memory>
    ensures { OnOk result (found.new ≡ found.old ++ map (global_with numbers.now) globals.now) }
{
    for global in globals {
        found.push(global_with(alloc, numbers, global)?)?;
    }
    Ok(())
}

fn add_elements(
    alloc: Global,
    numbers: &Numbers,
    elems: &[Elem],
    found: &mut Elems,
) -> Result<(), Memory>
    ensures { OnOk result (found.new ≡ found.old ++ map (element_with numbers.now) elems.now) }
{
    for elem in elems {
        found.push(element_with(alloc, numbers, elem)?)?;
    }
    Ok(())
}

fn add_datas(
    alloc: Global,
    numbers: &Numbers,
    datas: &[Data],
    found: &mut Datas,
) -> Result<(), Memory>
    ensures { OnOk result (found.new ≡ found.old ++ map (data_with numbers.now) datas.now) }
{
    for segment in datas {
        found.push(data_with(alloc, numbers, segment)?)?;
    }
    Ok(())
}

/// Adds the exports, with these numbers.
pub(crate) fn add_exports(
    numbers: &Numbers,
    exports: &[Export],
    found: &mut Exports,
) -> Result<(), Memory>
    ensures { OnOk result (found.new ≡ found.old ++ map (export_with numbers.now) exports.now) }
{
    for export in exports {
        found.push(export_with(numbers, export)?)?;
    }
    Ok(())
}
