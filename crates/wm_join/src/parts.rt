// The parts of one module with the numbers of the joined module.
ghost use Rattle.std.specs.Prelude.{◌≡◌, IfOk, map, option_map};
ghost use Rattle.wm_ast.specs.declared.module.Space.TheVariants as spaces;
ghost use Rattle.wm_join.specs.steps.Numbers.{number_of, space_number};
ghost use Rattle.wm_join.specs.steps.Parts.{code_with, function_with, global_with, element_with, data_with, export_with};

use crate::numbers::{Indices, Numbers};
use crate::renumber::renumber;
use mc_nbt::Memory;
use std::alloc::Global;
use wm_ast::{Data, Elem, Export, Func, FuncType, Instr, Instrs, Items, U32s};

/// A copy of the type.
pub(crate) fn type_copy(alloc: Global, ty: &FuncType) -> Result<FuncType, Memory>
    ensures { IfOk result (λ t. t ≡ ty.now) }
{
    Ok(FuncType {
        params: Items::from_vec(ty.params.as_slice().to_vec(alloc)?),
        results: Items::from_vec(ty.results.as_slice().to_vec(alloc)?),
    })
}

/// The function with these numbers.
pub(crate) fn function_with(alloc: Global, numbers: &Numbers, func: &Func) -> Result<Func, Memory>
    ensures { IfOk result (λ f. f ≡ function_with numbers.now func.now) }
{
    Ok(Func {
        kind: numbers.types.number(func.kind),
        locals: Items::from_vec(func.locals.as_slice().to_vec(alloc)?),
        body: code_with(alloc, numbers, func.body.as_slice())?,
    })
}

/// The global with these numbers.
pub(crate) fn global_with(
    alloc: Global,
    numbers: &Numbers,
    global: &wm_ast::Global,
) -> Result<wm_ast::Global, Memory>
    ensures { IfOk result (λ g. g ≡ global_with numbers.now global.now) }
{
    Ok(wm_ast::Global {
        ty: global.ty,
        mutable: global.mutable,
        init: code_with(alloc, numbers, global.init.as_slice())?,
    })
}

/// The element segment with these numbers.
pub(crate) fn element_with(alloc: Global, numbers: &Numbers, elem: &Elem) -> Result<Elem, Memory>
    ensures { IfOk result (λ e. e ≡ element_with numbers.now elem.now) }
{
    Ok(Elem {
        table: numbers.tables.number(elem.table),
        offset: code_with(alloc, numbers, elem.offset.as_slice())?,
        funcs: indices_with(alloc, &numbers.functions, elem.funcs.as_slice())?,
    })
}

fn indices_with(alloc: Global, numbers: &Indices, indices: &[u32]) -> Result<U32s, Memory>
    ensures { IfOk result (λ found. found ≡ map (number_of numbers.now) indices.now) }
{
    let mut found = Vec::new(alloc);
    for index in indices {
        found.push(numbers.number(*index))?;
    }
    Ok(Items::from_vec(found))
}

/// The data segment with these numbers.
pub(crate) fn data_with(alloc: Global, numbers: &Numbers, segment: &Data) -> Result<Data, Memory>
    ensures { IfOk result (λ d. d ≡ data_with numbers.now segment.now) }
{
    Ok(Data {
        memory: numbers.memories.number(segment.memory),
        offset: code_with(alloc, numbers, segment.offset.as_slice())?,
        bytes: segment.bytes.clone()?,
    })
}

/// The export with these numbers.
pub(crate) fn export_with(numbers: &Numbers, export: &Export) -> Result<Export, Memory>
    ensures { IfOk result (λ e. e ≡ export_with numbers.now export.now) }
{
    Ok(Export {
        name: export.name.clone()?,
        space: export.space,
        index: numbers.number(export.space, export.index),
    })
}

/// The start function with these numbers.
pub(crate) fn start_with(numbers: &Numbers, start: Option<u32>) -> Option<u32>
    ensures { result ≡ option_map (space_number numbers.now spaces.Func) start }
{
    match start {
        Some(f) => Some(numbers.functions.number(f)),
        None => None,
    }
}

// The expression with these numbers.
#[tactic(auto, using(crate::proofs::CodeLaws::code_back))]
fn code_with(alloc: Global, numbers: &Numbers, body: &[Instr]) -> Result<Instrs, Memory>
    ensures { IfOk result (λ is. is ≡ code_with numbers.now body.now) }
{
    renumber(alloc, numbers, body)
}
