// What instantiation begins with: what it finds in the module.
ghost use Rattle.std.specs.Prelude.{◌≡◌, IfOk, map, option_map, slice_get};
ghost use Rattle.wm_ast.specs.Profile.{pages};
ghost use Rattle.cc_page.specs.Pages.{signed_word};
ghost use Rattle.cc_init.specs.Init.{is_repeated};
ghost use Rattle.cc_init.specs.steps.Instantiating.{first_page, IsStart, later_pieces};

use crate::globals::global_pieces;
use crate::pages::{first_memory, is_repeated, page_at};
use crate::uses::uses_bytes;
use cc_line::sum;
use mc_nbt::{Memory, Value};
use std::alloc::Global;
use wm_ast::{Module, first_values};

/// What instantiation finds in a module.
#[derive(Drop)]
pub(crate) struct Start {
    /// The first values of the globals.
    pub values: Vec<Value>,
    /// How many pieces append them.
    pub global_pieces: u32,
    /// The pages of the memory, where there is one.
    pub pages: Option<u32>,
    /// Its bytes.
    pub bytes: Vec<u8>,
    /// The start function, where there is one.
    pub function: Option<u32>,
    /// Whether a function looks bytes up.
    pub uses_bytes: bool,
}

impl Start {
    /// That of a module; no memory where there is no room for it, a data segment reaches beyond the memory, or the
    /// number of pieces is no int.
    pub(crate) fn of(alloc: Global, m: &Module) -> Result<Start, Memory>
        ensures { IfOk result (IsStart m.now) }
    {
        let values = first_values(alloc, m)?;
        let global_pieces = global_pieces(m)?;
        let bytes = first_memory(alloc, m)?;
        Ok(Start {
            values,
            global_pieces,
            pages: first_pages(m),
            bytes,
            function: m.start,
            uses_bytes: uses_bytes(m),
        })
    }

    /// The words of the page of this number, signed; none where there is no such page.
    pub(crate) fn page(&self, alloc: Global, page: u32) -> Result<Option<Vec<i32>>, Memory>
        ensures { IfOk result (λ found. option_map (λ words. words.items) found
            ≡ option_map (map signed_word) (first_page self.now page)) }
    {
        page_at(alloc, self.bytes.as_slice(), self.pages.unwrap_or(0), page)
    }

    /// Whether the page of this number has the bytes of the one before it.
    pub(crate) fn is_repeated(&self, page: u32) -> bool
        ensures { result ≡ is_repeated self.now.bytes.items page }
    {
        is_repeated(self.bytes.as_slice(), page)
    }

    /// How many pieces come behind the first one.
    pub(crate) fn later_pieces(&self) -> Result<u32, Memory>
        ensures { IfOk result (λ n. n ≡ later_pieces self.now) }
    {
        sum(self.global_pieces, self.pages.unwrap_or(0))
    }
}

// The pages with which the memory begins, where there is one.
fn first_pages(m: &Module) -> Option<u32>
    ensures { result ≡ option_map pages (slice_get m.now.mems 0) }
{
    m.mems.get(0).map(|limits| limits.min)
}
