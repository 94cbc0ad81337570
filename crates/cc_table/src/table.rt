// The module's table as instantiation leaves it.
ghost use Rattle.std.specs.Prelude.{◌≡◌, map, slice_get, IfOk, OnOk, Some};
ghost use Rattle.wm_ast.specs.Instance.{empty_elements, first_store, placed, with_elements};
ghost use Rattle.wm_ast.specs.Profile.{constant_offset, element_code};
ghost use Rattle.wm_ast.specs.Store.{overwritten};

use mc_nbt::Memory;
use std::alloc::Global;
use wm_ast::{Elem, Module, constant_offset};

/// The module's table in the first store: each element is the index of a function or empty. A segment whose offset isn't
/// one constant is passed over.
///
/// # Errors
///
/// `Memory` where there is no room for it, or a segment reaches beyond the table.
pub fn first_table(alloc: Global, m: &Module) -> Result<Vec<Option<u32>>, Memory>
    ensures { IfOk result (λ table. table.items ≡ (first_store m.now).table) }
{
    let mut table = empty_table(alloc, m)?;
    put_segments(alloc, m.elems.as_slice(), &mut table)?;
    Ok(table)
}

// The elements before the segments.
fn empty_table(alloc: Global, m: &Module) -> Result<Vec<Option<u32>>, Memory>
    ensures { IfOk result (λ table. table.items ≡ empty_elements (slice_get m.now.tables 0)) }
{
    let mut table = Vec::new(alloc);
    if let Some(limits) = m.tables.get(0) {
        table.resize(limits.min as usize, None)?;
    }
    Ok(table)
}

fn put_segments(
    alloc: Global,
    segments: &[Elem],
    table: &mut Vec<Option<u32>>,
) -> Result<(), Memory>
    ensures { OnOk result (table.new.items ≡ with_elements segments.now table.old.items) }
{
    for segment in segments {
        put_segment(alloc, segment, table)?;
    }
    Ok(())
}

fn put_segment(alloc: Global, segment: &Elem, table: &mut Vec<Option<u32>>) -> Result<(), Memory>
    ensures { OnOk result (table.new.items ≡ placed (constant_offset (element_code segment.now))
        (map (λ f. Some f) segment.now.funcs) table.old.items) }
{
    match constant_offset(segment.offset.as_slice()) {
        None => Ok(()),
        Some(offset) => put(alloc, segment.funcs.as_slice(), offset, table),
    }
}

// Functions take the place of as many elements, from a place on.
fn put(alloc: Global, funcs: &[u32], at: u32, table: &mut Vec<Option<u32>>) -> Result<(), Memory>
    ensures { OnOk result (table.new.items ≡ overwritten table.old.items at (map (λ f. Some f) funcs.now)) }
{
    let elements = elements(alloc, funcs)?;
    let at = at as usize;
    let end = at + elements.len();
    if table.len() < end {
        return Err(Memory);
    }
    table[at..end].copy_from_slice(elements.as_slice());
    Ok(())
}

fn elements(alloc: Global, funcs: &[u32]) -> Result<Vec<Option<u32>>, Memory>
    ensures { IfOk result (λ elements. elements.items ≡ map (λ f. Some f) funcs.now) }
{
    Ok(funcs.iter().map(|func| Some(*func)).collect(alloc)?)
}
