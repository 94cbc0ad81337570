//! The lines of rows of memory.

ghost use Rattle.std.specs.Prelude.{◌≡◌, ◌+◌, ◌*◌, ◌<◌, ◌≤◌, ◌^◌, ◌∷◌, ◌++◌, IfOk, List, Some, ℕ};
ghost use Rattle.std.specs.Prelude.{drop, nat_eq, string_bytes, take};
ghost use Rattle.std.specs.List.{list_all};
ghost use Rattle.hex.specs.Hex.{encode_lower};
ghost use Rattle.mc_nbt.specs.View.{view};
ghost use Rattle.mc_cmd.specs.Layout.{page_in};
ghost use Rattle.app_words.specs.Lines as report;
ghost use Rattle.app_report.specs.steps.Pages.{ArePages, IsPage, bytes_of, rows_from};

use crate::pages::byte_at;
use mc_nbt::{Memory, Nbt};
use std::alloc::Global;

/// The rows of a page, each of 16 bytes.
const PAGE_ROWS: usize = 4_096;

/// The pages whose addresses have 64 bits. No machine holds more.
const MAX_PAGES: usize = 281_474_976_710_656;

fn is_zero(row: &[u8]) -> bool
    ensures { result ≡ list_all (λ b. nat_eq b 0) row.now }
{
    row.iter().all(|b| *b == 0)
}

// The line of bytes at an address.
fn line_at(alloc: Global, address: u64, bytes: &[u8]) -> Result<String, Memory>
    ensures { IfOk result (λ s. string_bytes s
        ≡ report.address_text address ++ (32 ∷ report.ended_line (encode_lower bytes.now))) }
{
    let digits = hex::encode(alloc, bytes)?;
    let line = format!(in alloc; "{address:08x} {digits}\n")?;
    Ok(line)
}

// The line of a row of bytes at an address; a row of zeros has none.
fn row_line(alloc: Global, address: u64, row: &[u8]) -> Result<String, Memory>
    ensures { IfOk result (λ s. string_bytes s ≡ report.row_line address row.now) }
{
    if is_zero(row) {
        return Ok(String::new(alloc));
    }
    let line = line_at(alloc, address, row)?;
    Ok(line)
}

// The bytes of a row of a page.
fn row_of(alloc: Global, page: &Nbt, row: usize) -> Result<Vec<u8>, Memory>
    requires page { IsPage page.now }
    requires within { row < 4096 }
    ensures { IfOk result (λ v. (bytes : List ℕ) → page_in (view page.now) ≡ Some bytes
        → v.items ≡ take 16 (drop (16 * row) bytes)) }
{
    let mut bytes = Vec::new(alloc);
    for i in 0..16 {
        bytes.push(byte_at(page, 16 * row + i))?;
    }
    Ok(bytes)
}

// The lines of the rows of a page that begins at an address.
fn page_lines(alloc: Global, page: &Nbt, address: u64) -> Result<String, Memory>
    requires page { IsPage page.now }
    requires small { address + 65536 ≤ 2 ^ 64 }
    ensures { IfOk result (λ s. string_bytes s ≡ rows_from address (page_in (view page.now))) }
{
    let mut text = String::new(alloc);
    for i in 0..PAGE_ROWS {
        let row = row_of(alloc, page, i)?;
        let line = row_line(alloc, address + 16 * i as u64, row.as_slice())?;
        text.push_str(line.as_str())?;
    }
    Ok(text)
}

// The lines of the rows of all pages.
pub(crate) fn row_lines(alloc: Global, pages: &[Nbt]) -> Result<String, Memory>
    requires { ArePages pages.now }
    ensures { IfOk result (λ s. string_bytes s ≡ report.shown_rows (bytes_of pages.now)) }
{
    let mut text = String::new(alloc);
    for (i, page) in pages.iter().enumerate() {
        if i >= MAX_PAGES {
            return Err(Memory);
        }
        let lines = page_lines(alloc, page, i as u64 * 65_536)?;
        text.push_str(lines.as_str())?;
    }
    Ok(text)
}
