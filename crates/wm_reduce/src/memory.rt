ghost use Rattle.std.specs.Prelude.{◌≡◌, ◌+◌, ◌*◌, ◌/◌, ◌^◌, ◌<◌, ◌≤◌, [], ◌++◌, length, replicate, slice_index, slice_set, option_map, OnOk, OnErr, IfOk, IfSome, if◌then◌else◌, nat_lt, true, false};
ghost use Rattle.wm_ast.specs.declared.limit.TheConstants.{PAGES};
ghost use Rattle.wm_ast.specs.Storage.{number_of, bytes_of};
ghost use Rattle.wm_ast.specs.Store.{items_at, overwritten};

use crate::instance::put;
use mc_nbt::Memory;
use std::alloc::Global;
use std::marker::Model;

/// The number of bytes of a page.
pub(crate) const PAGE_SIZE: usize = 65536;

/// A memory of a program, of at most `PAGES` whole pages. Contracts see it as the list of its bytes.
#[derive(Debug, Drop)]
pub(crate) struct LinearMemory {
    bytes: Vec<u8>,
}

impl Model for LinearMemory {
    ghost use Rattle.std.specs.Prelude.{List, ℕ, ◌+◌, ◌*◌, ◌<◌, length};
    ghost use Rattle.wm_ast.specs.declared.limit.TheConstants.{PAGES};
    ghost use Rattle.std.specs.Coded.{coded_list, coded_ℕ};

    ghost Value = { List ℕ };

    ghost coded = { coded_list coded_ℕ };

    ghost view = { λ m. m.bytes.items };

    ghost invariant = { λ m. length m.bytes.items < 65536 * (PAGES + 1) };
}

// The number that these bytes are, the lowest first.
fn number(bytes: &[u8]) -> u64
    requires { length bytes.now ≤ 8 }
    ensures value { result ≡ number_of bytes.now }
    ensures bound { result < 256 ^ length bytes.now }
{
    match bytes {
        [] => 0,
        [low, others @ ..] => u64::from(*low) + 256 * number(others),
    }
}

// Writes the low bytes of a number, the lowest first, where there is room for them.
fn overwrite(bytes: &mut Vec<u8>, at: usize, width: usize, number: u64)
    requires { at + width ≤ length bytes.old.items }
    ensures { bytes.new.items ≡ overwritten bytes.old.items at (bytes_of width number) }
{
    let mut rest = number;
    for i in 0..width {
        bytes[at + i] = (rest % 256) as u8;
        rest /= 256;
    }
}

impl LinearMemory {
    /// So many pages of zeros.
    pub(crate) fn new(alloc: Global, pages: u32) -> Result<LinearMemory, Memory>
        requires { pages ≤ PAGES }
        ensures { IfOk result (λ m. m ≡ replicate (65536 * pages) 0) }
    {
        let mut bytes = Vec::new(alloc);
        bytes.resize(PAGE_SIZE * pages as usize, 0)?;
        Ok(LinearMemory { bytes })
    }

    /// The bytes.
    pub(crate) fn as_slice(&self) -> &[u8]
        ensures { result.now ≡ self.now }
    {
        self.bytes.as_slice()
    }

    /// The number of bytes.
    pub(crate) fn len(&self) -> usize
        ensures count { result ≡ length self.now }
        ensures small { result < 65536 * (PAGES + 1) }
    {
        self.bytes.len()
    }

    /// The number of pages.
    pub(crate) fn pages(&self) -> u32
        ensures count { result ≡ length self.now / 65536 }
        ensures small { result ≤ PAGES }
    {
        (self.bytes.len() / PAGE_SIZE) as u32
    }

    /// The byte at a place.
    pub(crate) fn byte(&self, at: usize) -> u8
        requires { at < length self.now }
        ensures { result ≡ slice_index self.now at }
    {
        self.bytes[at]
    }

    /// Writes a byte.
    pub(crate) fn set_byte(&mut self, at: usize, byte: u8)
        requires { at < length self.old }
        ensures { self.new ≡ slice_set self.old at byte }
    {
        self.bytes[at] = byte;
    }

    /// The number that so many bytes from a place on are, the lowest first. `None` exactly where they reach beyond the
    /// end.
    pub(crate) fn read(&self, at: u64, width: usize) -> Option<u64>
        requires place { at < 2 ^ 33 }
        requires width { width ≤ 8 }
        ensures value { result ≡ option_map number_of (items_at self.now at width) }
        ensures bound { IfSome result (λ n. n < 256 ^ width) }
    {
        let at = at as usize;
        if self.bytes.len() < at + width {
            return None;
        }
        Some(number(&self.bytes[at..at + width]))
    }

    /// Writes the low bytes of a number from a place on, the lowest first. Gives false, with nothing written, exactly
    /// where they reach beyond the end.
    pub(crate) fn write(&mut self, at: u64, width: usize, number: u64) -> bool
        requires place { at < 2 ^ 33 }
        requires width { width ≤ 8 }
        ensures fits { result ≡ (if nat_lt (length self.old) (at + width) then false else true) }
        ensures written { self.new ≡ (if nat_lt (length self.old) (at + width) then self.old else overwritten self.old at (bytes_of width number)) }
    {
        let at = at as usize;
        if self.bytes.len() < at + width {
            return false;
        }
        overwrite(&mut self.bytes, at, width, number);
        true
    }

    /// Writes bytes from a place on.
    pub(crate) fn put(&mut self, at: usize, bytes: &[u8])
        requires { at + length bytes.now ≤ length self.old }
        ensures { self.new ≡ overwritten self.old at bytes.now }
    {
        put(&mut self.bytes, at, bytes);
    }

    /// Adds pages of zeros. There have to be at most `PAGES` pages then. Where memory is wanting the bytes stay.
    pub(crate) fn grow(&mut self, pages: u32) -> Result<(), Memory>
        requires { length self.old / 65536 + pages ≤ PAGES }
        ensures ok { OnOk result (self.new ≡ self.old ++ replicate (65536 * pages) 0) }
        ensures err { OnErr result (self.new ≡ self.old) }
    {
        let grown = self.bytes.len() + PAGE_SIZE * pages as usize;
        self.bytes.resize(grown, 0)?;
        Ok(())
    }
}
