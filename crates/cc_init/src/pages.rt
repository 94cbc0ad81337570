// The memory of a module as instantiation leaves it: its bytes, and its pages as words.
ghost use Rattle.std.specs.Prelude.{◌≡◌, map, slice_get, IfOk, OnOk, option_map};
ghost use Rattle.wm_ast.specs.Instance.{first_store, placed, with_datas, zeros};
ghost use Rattle.wm_ast.specs.Profile.{constant_offset, data_code};
ghost use Rattle.wm_ast.specs.Store.{overwritten};
ghost use Rattle.cc_page.specs.Pages.{pages_of, signed_word, words_of};
ghost use Rattle.cc_init.specs.Init.{is_repeated, page_bytes};
ghost use Rattle.cc_init.specs.steps.Instantiating.{word};

use mc_nbt::Memory;
use std::alloc::Global;
use wm_ast::{Data, Module, constant_offset};

// The bytes of a page.
const PAGE_SIZE: usize = 65_536;

/// The module's memory in the first store. A segment whose offset isn't one constant is passed over; no memory where
/// one reaches beyond the bytes.
pub(crate) fn first_memory(alloc: Global, m: &Module) -> Result<Vec<u8>, Memory>
    ensures { IfOk result (λ bytes. bytes.items ≡ (first_store m.now).memory) }
{
    let mut bytes = empty_memory(alloc, m)?;
    put_segments(m.datas.as_slice(), &mut bytes)?;
    Ok(bytes)
}

// The bytes before the segments.
fn empty_memory(alloc: Global, m: &Module) -> Result<Vec<u8>, Memory>
    ensures { IfOk result (λ bytes. bytes.items ≡ zeros (slice_get m.now.mems 0)) }
{
    let mut bytes = Vec::new(alloc);
    if let Some(limits) = m.mems.get(0) {
        bytes.resize(PAGE_SIZE * limits.min as usize, 0)?;
    }
    Ok(bytes)
}

fn put_segments(segments: &[Data], bytes: &mut Vec<u8>) -> Result<(), Memory>
    ensures { OnOk result (bytes.new.items ≡ with_datas segments.now bytes.old.items) }
{
    for segment in segments {
        put_segment(segment, bytes)?;
    }
    Ok(())
}

fn put_segment(segment: &Data, bytes: &mut Vec<u8>) -> Result<(), Memory>
    ensures { OnOk result (bytes.new.items
        ≡ placed (constant_offset (data_code segment.now)) segment.now.bytes bytes.old.items) }
{
    match constant_offset(segment.offset.as_slice()) {
        None => Ok(()),
        Some(offset) => put(segment.bytes.as_slice(), offset, bytes),
    }
}

// Bytes take the place of as many others, from an address on.
fn put(others: &[u8], at: u32, bytes: &mut Vec<u8>) -> Result<(), Memory>
    ensures { OnOk result (bytes.new.items ≡ overwritten bytes.old.items at others.now) }
{
    let at = at as usize;
    let end = at + others.len();
    if bytes.len() < end {
        return Err(Memory);
    }
    bytes[at..end].copy_from_slice(others);
    Ok(())
}

/// The words of the page of this number, signed, where a memory has so many pages and these bytes; none beyond its
/// pages, and no memory where the bytes are fewer.
pub(crate) fn page_at(
    alloc: Global,
    bytes: &[u8],
    pages: u32,
    page: u32,
) -> Result<Option<Vec<i32>>, Memory>
    ensures { IfOk result (λ found. option_map (λ words. words.items) found
        ≡ option_map (map signed_word) (slice_get (pages_of pages bytes.now) page)) }
{
    if page >= pages {
        return Ok(None);
    }
    let start = PAGE_SIZE * page as usize;
    match bytes.get(start..start + PAGE_SIZE) {
        Some(bytes) => Ok(Some(words_of(alloc, bytes)?)),
        None => Err(Memory),
    }
}

/// Whether the page of this number has the bytes of the one before it.
pub(crate) fn is_repeated(bytes: &[u8], page: u32) -> bool
    ensures { result ≡ is_repeated bytes.now page }
{
    match page.checked_sub(1) {
        None => false,
        Some(before) => page_bytes(bytes, before) == page_bytes(bytes, page),
    }
}

// The bytes of the page of this number, as far as there are any.
fn page_bytes(bytes: &[u8], page: u32) -> &[u8]
    ensures { result.now ≡ page_bytes bytes.now page }
{
    let start = bytes.len().min(PAGE_SIZE * page as usize);
    let end = bytes.len().min(start + PAGE_SIZE);
    &bytes[start..end]
}

fn words_of(alloc: Global, bytes: &[u8]) -> Result<Vec<i32>, Memory>
    ensures { IfOk result (λ words. words.items ≡ map signed_word (words_of bytes.now)) }
{
    let (fours, _) = bytes.as_chunks::<4>();
    words_in(alloc, fours)
}

fn words_in(alloc: Global, fours: &[[u8; 4]]) -> Result<Vec<i32>, Memory>
    ensures { IfOk result (λ words. words.items ≡ map word fours.now) }
{
    Ok(fours.iter().map(word).collect(alloc)?)
}

// The word of four bytes, of which the first one is the lowest.
fn word(bytes: &[u8; 4]) -> i32
    ensures { result ≡ word bytes.now }
{
    i32::from_le_bytes(*bytes)
}
