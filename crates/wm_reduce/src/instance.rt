// Instantiation (4.5.4).
ghost use Rattle.std.specs.Prelude.{◌≡◌, ◌+◌, ◌≤◌, length, map, slice_get, IfOk, OnOk, Some};
ghost use Rattle.wm_ast.specs.Instance.{with_datas, with_elements, zeros, empty_elements, first_store};
ghost use Rattle.wm_ast.specs.Store.{overwritten};
ghost use Rattle.wm_reduce.specs.TermView.{store_of};
ghost use Rattle.wm_reduce.specs.steps.Fitting.{DatasFit, ElementsFit, Fits};

use crate::memory::LinearMemory;
use crate::simple::Storage;
use mc_nbt::Memory;
use std::alloc::Global;
use wm_ast::{Data, Elem, Module, constant_offset, first_values};

/// The store in which the globals are set and the segments are written.
pub(crate) fn first_storage(alloc: Global, m: &Module) -> Result<Storage, Memory>
    requires { Fits m.now }
    ensures { IfOk result (λ s. store_of s ≡ first_store m.now) }
{
    let globals = first_values(alloc, m)?;
    let memory = first_memory(alloc, m)?;
    let table = first_table(alloc, m)?;
    Ok(Storage {
        globals,
        memory,
        table,
    })
}

// The memory with its data segments.
fn first_memory(alloc: Global, m: &Module) -> Result<LinearMemory, Memory>
    requires { Fits m.now }
    ensures { IfOk result (λ memory. memory ≡ with_datas m.now.datas (zeros (slice_get m.now.mems 0))) }
{
    let mut memory = empty_memory(alloc, m)?;
    write_datas(&mut memory, m.datas.as_slice());
    Ok(memory)
}

// The memory before its segments.
fn empty_memory(alloc: Global, m: &Module) -> Result<LinearMemory, Memory>
    requires { Fits m.now }
    ensures { IfOk result (λ memory. memory ≡ zeros (slice_get m.now.mems 0)) }
{
    match m.mems.get(0) {
        None => LinearMemory::new(alloc, 0),
        Some(limits) => LinearMemory::new(alloc, limits.min),
    }
}

fn write_datas(memory: &mut LinearMemory, datas: &[Data])
    requires { DatasFit datas.now (length memory.old) }
    ensures { memory.new ≡ with_datas datas.now memory.old }
{
    for data in datas {
        if let Some(offset) = constant_offset(data.offset.as_slice()) {
            memory.put(offset as usize, data.bytes.as_slice());
        }
    }
}

// The table with its element segments.
fn first_table(alloc: Global, m: &Module) -> Result<Vec<Option<u32>>, Memory>
    requires { Fits m.now }
    ensures { IfOk result (λ table. table.items ≡ with_elements m.now.elems (empty_elements (slice_get m.now.tables 0))) }
{
    let mut table = empty_table(alloc, m)?;
    write_elements(alloc, &mut table, m.elems.as_slice())?;
    Ok(table)
}

// The table before its segments.
fn empty_table(alloc: Global, m: &Module) -> Result<Vec<Option<u32>>, Memory>
    ensures { IfOk result (λ table. table.items ≡ empty_elements (slice_get m.now.tables 0)) }
{
    let mut table = Vec::new(alloc);
    match m.tables.get(0) {
        None => Ok(table),
        Some(limits) => {
            table.resize(limits.min as usize, None)?;
            Ok(table)
        }
    }
}

fn write_elements(alloc: Global, table: &mut Vec<Option<u32>>, elems: &[Elem]) -> Result<(), Memory>
    requires { ElementsFit elems.now (length table.old.items) }
    ensures { OnOk result (table.new.items ≡ with_elements elems.now table.old.items) }
{
    for elem in elems {
        if let Some(offset) = constant_offset(elem.offset.as_slice()) {
            let funcs = elements(alloc, elem.funcs.as_slice())?;
            put(table, offset as usize, funcs.as_slice());
        }
    }
    Ok(())
}

// These functions as elements.
fn elements(alloc: Global, funcs: &[u32]) -> Result<Vec<Option<u32>>, Memory>
    ensures { IfOk result (λ table. table.items ≡ map (λ f. Some f) funcs.now) }
{
    Ok(funcs.iter().map(|func| Some(*func)).collect(alloc)?)
}

/// Puts items in the place of as many others, from a place on.
pub(crate) fn put<T: Copy>(items: &mut Vec<T>, at: usize, others: &[T])
    requires { at + length others.now ≤ length items.old.items }
    ensures { items.new.items ≡ overwritten items.old.items at others.now }
{
    items[at..at + others.len()].copy_from_slice(others);
}
