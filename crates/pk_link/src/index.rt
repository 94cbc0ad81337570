// The index of the pack of a module.
ghost use Rattle.std.specs.Prelude.{◌≡◌, IfOk, map, option_map};
ghost use Rattle.mc_cmd.specs.Packing.{export_view, index_view};
ghost use Rattle.pk_link.specs.Functions as spec;

use mc_cmd::{ExportType, Index};
use mc_nbt::{Kind, Memory, Text};
use std::alloc::Global;
use wm_ast::{Export, FuncType, Module, Space, ValType};

// The exports of functions, in their order.
pub(crate) fn index_of(alloc: Global, m: &Module, ns: &Text) -> Result<Index, Memory>
    ensures { IfOk result (λ i. index_view i ≡ spec.pack_index m.now ns.now) }
{
    let mut exports = Vec::new(alloc);
    for export in m.exports.as_slice() {
        if export.space == Space::Func {
            exports.push(export_of(alloc, m, export)?)?;
        }
    }
    Ok(Index {
        ns: ns.clone()?,
        exports,
    })
}

// The entry of an export of a function.
fn export_of(alloc: Global, m: &Module, export: &Export) -> Result<ExportType, Memory>
    ensures { IfOk result (λ e. export_view e ≡ spec.export_of m.now export.now) }
{
    let name = export.name.clone()?;
    let Some(ty) = type_of(m, export.index) else {
        return Ok(ExportType {
            name,
            params: Vec::new(alloc),
            result: None,
        });
    };
    Ok(ExportType {
        name,
        params: kinds_of(alloc, ty.params.as_slice())?,
        result: first_kind(ty.results.as_slice()),
    })
}

// The type of the function of this index, if there is one.
fn type_of(m: &Module, func: u32) -> Option<&FuncType>
    ensures { option_map (λ t. t.now) result ≡ spec.type_of m.now func }
{
    let function = m.funcs.get(func as usize)?;
    m.types.get(function.kind as usize)
}

fn kinds_of(alloc: Global, types: &[ValType]) -> Result<Vec<Kind>, Memory>
    ensures { IfOk result (λ ks. ks.items ≡ map spec.int_kind types.now) }
{
    let mut kinds = Vec::new(alloc);
    for ty in types {
        kinds.push(int_kind(*ty))?;
    }
    Ok(kinds)
}

fn first_kind(types: &[ValType]) -> Option<Kind>
    ensures { result ≡ spec.first_kind types.now }
{
    match types {
        [] => None,
        [ty, ..] => Some(int_kind(*ty)),
    }
}

fn int_kind(ty: ValType) -> Kind
    ensures { result ≡ spec.int_kind ty }
{
    match ty {
        ValType::I64 => Kind::I64,
        ValType::I32 | ValType::F32 | ValType::F64 => Kind::I32,
    }
}
