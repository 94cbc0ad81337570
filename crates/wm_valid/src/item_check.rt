ghost use Rattle.std.specs.Prelude.{◌↔◌, ◌<◌, All, IsTrue, IfOk, IfNone};
ghost use Rattle.wm_ast.specs.declared.item.Item.{Item as Kinds};
ghost use Rattle.wm_ast.specs.declared.item.Item.TheVariants as kinds;
ghost use Rattle.wm_ast.specs.View.{op_of, code_of};
ghost use Rattle.wm_valid.specs.InRange.{IsByte, OpInRange, CodeInRange, GlobalsInRange, DatasInRange};
ghost use Rattle.wm_valid.specs.Valid.{AreValidLimits, IsValidTable, IsValidMemory, IsConstant, IsConstantCode, IsValidElement, IsValidData, IsValidStart, IsThere};
ghost use Rattle.wm_valid.specs.steps.Searching.{FirstOfKind, FirstOfAll, KindInRange};

use crate::rule::constant;
use mc_nbt::Memory;
use std::alloc::Global;
use std::collections::BTreeSet;
use wm_ast::{Data, Elem, Instr, Instrs, Item, Limits, Module, Space, ValType};

/// The kinds of items in the order in which they are looked at.
const ORDER: [Item; 10] = [
    Item::Types,
    Item::Imports,
    Item::Functions,
    Item::Tables,
    Item::Memories,
    Item::Globals,
    Item::Elements,
    Item::Datas,
    Item::Start,
    Item::Exports,
];

/// The first item that isn't valid: its kind, and its index among the items of its kind.
pub(crate) fn first_invalid(alloc: Global, m: &Module) -> Result<Option<(Item, u64)>, Memory>
    ensures first { IfOk result (λ found. FirstOfAll m.now found) }
    ensures range { IfOk result (λ found. IfNone found ((kind : Kinds) → KindInRange m.now kind)) }
{
    for kind in ORDER {
        if let Some(index) = first_of_kind(alloc, m, kind)? {
            return Ok(Some((kind, index)));
        }
    }
    Ok(None)
}

fn first_of_kind(alloc: Global, m: &Module, kind: Item) -> Result<Option<u64>, Memory>
    ensures first { IfOk result (λ found. FirstOfKind m.now kind found) }
    ensures range { IfOk result (λ found. IfNone found (KindInRange m.now kind)) }
{
    match kind {
        Item::Types => Ok(first_type(m)),
        Item::Imports => Ok(None),
        Item::Functions => Ok(first_function(m)),
        Item::Tables => Ok(first_table(m)),
        Item::Memories => Ok(first_memory(m)),
        Item::Globals => Ok(first_global(m)),
        Item::Elements => Ok(first_element(m)),
        Item::Datas => Ok(first_data(m)),
        Item::Start => Ok(invalid_start(m)),
        Item::Exports => first_export(alloc, m),
    }
}

fn first_type(m: &Module) -> Option<u64>
    ensures { FirstOfKind m.now kinds.Types result }
{
    for (index, ty) in m.types.as_slice().iter().enumerate() {
        if ty.results.len() > 1 {
            return Some(index as u64);
        }
    }
    None
}

fn first_function(m: &Module) -> Option<u64>
    ensures { FirstOfKind m.now kinds.Functions result }
{
    for (index, func) in m.funcs.as_slice().iter().enumerate() {
        if func.kind as usize >= m.types.len() {
            return Some(index as u64);
        }
    }
    None
}

fn first_table(m: &Module) -> Option<u64>
    ensures { FirstOfKind m.now kinds.Tables result }
{
    for (index, limits) in m.tables.as_slice().iter().enumerate() {
        if !is_valid_table(index, limits) {
            return Some(index as u64);
        }
    }
    None
}

fn first_memory(m: &Module) -> Option<u64>
    ensures { FirstOfKind m.now kinds.Memories result }
{
    for (index, limits) in m.mems.as_slice().iter().enumerate() {
        if !is_valid_memory(index, limits) {
            return Some(index as u64);
        }
    }
    None
}

fn is_valid_table(index: usize, limits: &Limits) -> bool
    ensures { IsTrue result ↔ IsValidTable index limits.now }
{
    index == 0 && are_valid_limits(limits, u32::MAX)
}

fn is_valid_memory(index: usize, limits: &Limits) -> bool
    ensures { IsTrue result ↔ IsValidMemory index limits.now }
{
    index == 0 && are_valid_limits(limits, 65536)
}

fn are_valid_limits(limits: &Limits, range: u32) -> bool
    ensures { IsTrue result ↔ AreValidLimits range limits.now }
{
    limits.min <= range
        && match limits.max {
            Some(max) => limits.min <= max && max <= range,
            None => true,
        }
}

fn first_global(m: &Module) -> Option<u64>
    ensures first { FirstOfKind m.now kinds.Globals result }
    ensures range { IfNone result (GlobalsInRange m.now) }
{
    for (index, global) in m.globals.as_slice().iter().enumerate() {
        if !is_constant(&global.init, global.ty) {
            return Some(index as u64);
        }
    }
    None
}

#[tactic(auto, using(crate::proofs::FirstLaws::no_constant))]
fn is_constant(init: &Instrs, ty: ValType) -> bool
    ensures exact { IsTrue result ↔ IsConstantCode ty (code_of init.now) }
    ensures range { IsTrue result → CodeInRange (code_of init.now) }
{
    match init.as_slice() {
        [] => false,
        [only] => is_constant_instr(only, ty),
        [_, _, ..] => false,
    }
}

fn is_constant_instr(instr: &Instr, ty: ValType) -> bool
    ensures exact { IsTrue result ↔ IsConstant ty (op_of instr.now) }
    ensures range { IsTrue result → OpInRange (op_of instr.now) }
{
    match instr {
        Instr::Const(value) => constant(*value) == ty,
        _ => false,
    }
}

fn first_element(m: &Module) -> Option<u64>
    ensures { FirstOfKind m.now kinds.Elements result }
{
    for (index, elem) in m.elems.as_slice().iter().enumerate() {
        if !is_valid_element(m, elem) {
            return Some(index as u64);
        }
    }
    None
}

fn is_valid_element(m: &Module, elem: &Elem) -> bool
    ensures { IsTrue result ↔ IsValidElement m.now elem.now }
{
    (elem.table as usize) < m.tables.len()
        && is_constant(&elem.offset, ValType::I32)
        && elem
            .funcs
            .as_slice()
            .iter()
            .all(|func| (*func as usize) < m.funcs.len())
}

fn first_data(m: &Module) -> Option<u64>
    ensures first { FirstOfKind m.now kinds.Datas result }
    ensures range { IfNone result (DatasInRange m.now) }
{
    for (index, data) in m.datas.as_slice().iter().enumerate() {
        if !is_valid_data(m, data) {
            return Some(index as u64);
        }
    }
    None
}

fn is_valid_data(m: &Module, segment: &Data) -> bool
    ensures exact { IsTrue result ↔ IsValidData m.now segment.now }
    ensures range { All IsByte segment.now.bytes }
{
    are_bytes(segment.bytes.as_slice());
    (segment.memory as usize) < m.mems.len() && is_constant(&segment.offset, ValType::I32)
}

// Law: the items of a slice of bytes are below 256.
fn are_bytes(bytes: &[u8])
    ensures { All IsByte bytes.now }
{}

fn invalid_start(m: &Module) -> Option<u64>
    ensures { FirstOfKind m.now kinds.Start result }
{
    match m.start {
        Some(func) if !is_valid_start(m, func) => Some(0),
        _ => None,
    }
}

fn is_valid_start(m: &Module, func: u32) -> bool
    ensures { IsTrue result ↔ IsValidStart m.now func }
{
    let Some(func) = m.funcs.get(func as usize) else {
        return false;
    };
    match m.types.get(func.kind as usize) {
        Some(ty) => ty.params.is_empty() && ty.results.is_empty(),
        None => false,
    }
}

fn first_export(alloc: Global, m: &Module) -> Result<Option<u64>, Memory>
    ensures { IfOk result (λ found. FirstOfKind m.now kinds.Exports found) }
{
    let mut names: BTreeSet<&str> = BTreeSet::new(alloc);
    for (index, export) in m.exports.as_slice().iter().enumerate() {
        if !is_there(m, export.space, export.index) {
            return Ok(Some(index as u64));
        }
        if !names.insert(export.name.as_str())? {
            return Ok(Some(index as u64));
        }
    }
    Ok(None)
}

fn is_there(m: &Module, space: Space, index: u32) -> bool
    ensures { IsTrue result ↔ IsThere m.now space index }
{
    let count = match space {
        Space::Func => m.funcs.len(),
        Space::Table => m.tables.len(),
        Space::Memory => m.mems.len(),
        Space::Global => m.globals.len(),
    };
    (index as usize) < count
}
