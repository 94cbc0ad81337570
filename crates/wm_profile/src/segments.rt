ghost use Rattle.std.specs.Prelude.{◌≡◌, position, option_map, slice_get};
ghost use Rattle.std.specs.Result.{result_err};
ghost use Rattle.wm_ast.specs.Profile.{entries, bytes_of, is_beyond as reaches_beyond, is_element_beyond as element_reaches_beyond, is_data_beyond as data_reaches_beyond};
ghost use Rattle.wm_profile.specs.Cause.{at, first_beyond, beyond_at};

use crate::ProfileFault;
use wm_ast::{Data, Elem, Item, Limits, Module, constant_offset};

/// That no segment reaches beyond the least size of its table or memory.
///
/// # Errors
///
/// `SegmentOutside` exactly where one does: the first, elements before datas.
pub(crate) fn check_segments(m: &Module) -> Result<(), ProfileFault>
    ensures { result_err result ≡ option_map beyond_at (first_beyond m.now) }
{
    none_beyond(Item::Elements, element_beyond(m))?;
    none_beyond(Item::Datas, data_beyond(m))
}

fn none_beyond(item: Item, first: Option<usize>) -> Result<(), ProfileFault>
    ensures { result_err result ≡ option_map beyond_at (at item first) }
{
    match first {
        None => Ok(()),
        Some(index) => Err(ProfileFault::SegmentOutside {
            item,
            index: index as u64,
        }),
    }
}

fn element_beyond(m: &Module) -> Option<usize>
    ensures { result ≡ position (element_reaches_beyond m.now) m.now.elems }
{
    let elems = m.elems.as_slice();
    elems.iter().position(|elem| is_element_beyond(m, elem))
}

fn data_beyond(m: &Module) -> Option<usize>
    ensures { result ≡ position (data_reaches_beyond m.now) m.now.datas }
{
    let datas = m.datas.as_slice();
    datas.iter().position(|data| is_data_beyond(m, data))
}

fn is_element_beyond(m: &Module, segment: &Elem) -> bool
    ensures { result ≡ element_reaches_beyond m.now segment.now }
{
    let offset = constant_offset(segment.offset.as_slice());
    let count = segment.funcs.len() as u64;
    is_beyond(offset, count, table_size(m, segment.table))
}

fn is_data_beyond(m: &Module, segment: &Data) -> bool
    ensures { result ≡ data_reaches_beyond m.now segment.now }
{
    let offset = constant_offset(segment.offset.as_slice());
    let count = segment.bytes.len() as u64;
    is_beyond(offset, count, memory_size(m, segment.memory))
}

// The least size of a table in entries, where there is one of this index.
fn table_size(m: &Module, table: u32) -> Option<u64>
    ensures { result ≡ option_map entries (slice_get m.now.tables table) }
{
    let limits = m.tables.get(table as usize)?;
    Some(u64::from(limits.min))
}

// The least size of a memory in bytes, where there is one of this index.
fn memory_size(m: &Module, memory: u32) -> Option<u64>
    ensures { result ≡ option_map bytes_of (slice_get m.now.mems memory) }
{
    let limits = m.mems.get(memory as usize)?;
    Some(bytes(*limits))
}

fn bytes(limits: Limits) -> u64
    ensures { result ≡ bytes_of limits }
{
    65_536 * u64::from(limits.min)
}

// Whether a segment of this length reaches beyond the size. One whose offset or size isn't known doesn't.
fn is_beyond(offset: Option<u32>, count: u64, size: Option<u64>) -> bool
    ensures { result ≡ reaches_beyond offset count size }
{
    match (offset, size) {
        (Some(offset), Some(size)) => {
            let offset = u64::from(offset);
            size < offset || size - offset < count
        }
        _ => false,
    }
}
