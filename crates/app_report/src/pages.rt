//! The bytes of memory, which stands in pages of words.

ghost use Rattle.std.specs.Prelude.{◌≡◌, ◌+◌, ◌*◌, ◌<◌, ◌≤◌, IfOk, List, None, Some, true, ℕ};
ghost use Rattle.std.specs.Prelude.{is_some, length, map, option_map, slice_get, string_bytes, take, drop};
ghost use Rattle.std.specs.List.{list_all};
ghost use Rattle.hex.specs.Hex.{encode_lower};
ghost use Rattle.mc_nbt.specs.Tree.{int, items, list as tree_list, list_of, of_items};
ghost use Rattle.mc_nbt.specs.View.{list_view, sel, view};
ghost use Rattle.mc_cmd.specs.Layout.{four_bytes, memory_in, page_in, pages_in, word_in, words_in};
ghost use Rattle.app_words.specs.Lines as report;
ghost use Rattle.app_report.specs.steps.Pages.{ArePages, ArePagesOf, HasWord, IsPage, bytes_of, word_number};

use mc_nbt::{Memory, Nbt, NbtList, Sel};
use std::alloc::Global;

/// The words of a page, each of four bytes.
const PAGE_WORDS: usize = 16_384;

/// The bytes of a page.
const PAGE_BYTES: usize = 65_536;

#[tactic(auto, using(crate::proofs::PagesLemmas::int_is_word))]
fn is_int(tree: &Nbt) -> bool
    ensures { result ≡ is_some (word_in (view tree.now)) }
{
    matches!(tree, Nbt::Int(_))
}

fn all_are_ints(trees: &[Nbt]) -> bool
    ensures { result ≡ list_all (λ t. is_some (word_in (view t))) trees.now }
{
    trees.iter().all(|tree| is_int(tree))
}

fn are_ints(trees: &[Nbt]) -> bool
    ensures { result ≡ is_some (words_in (items (map view trees.now))) }
{
    all_are_ints(trees)
}

fn is_page_of_ints(ints: &[i32]) -> bool
    ensures { result ≡ is_some (page_in (list_of (map int ints.now))) }
{
    ints.len() == PAGE_WORDS
}

fn is_page_of_trees(trees: &[Nbt]) -> bool
    ensures { result ≡ is_some (page_in (list_of (map view trees.now))) }
{
    trees.len() == PAGE_WORDS && are_ints(trees)
}

fn is_page_list(list: &NbtList) -> bool
    ensures { result ≡ is_some (page_in (tree_list (list_view list.now))) }
{
    match list {
        NbtList::Ints(ints) => is_page_of_ints(ints.as_slice()),
        NbtList::Trees(trees) => is_page_of_trees(trees.as_slice()),
    }
}

fn is_page(tree: &Nbt) -> bool
    ensures { result ≡ is_some (page_in (view tree.now)) }
{
    match tree {
        Nbt::List(list) => is_page_list(list),
        Nbt::Int(_) | Nbt::Str(_) | Nbt::Compound(_) => false,
    }
}

fn all_are_pages(trees: &[Nbt]) -> bool
    ensures { result ≡ list_all (λ t. is_some (page_in (view t))) trees.now }
{
    trees.iter().all(|tree| is_page(tree))
}

fn are_pages(trees: &[Nbt]) -> bool
    ensures { result ≡ is_some (bytes_of trees.now) }
{
    all_are_pages(trees)
}

// A list of ints is a list of pages only where it has none: an int is no page.
#[tactic(auto, using(crate::proofs::PagesLemmas::ints_are_no_pages))]
fn pages_of_ints<'a>(ints: &[i32]) -> Option<&'a [Nbt]>
    ensures { ArePagesOf result (λ ps. ps.now) (pages_in (items (map int ints.now))) }
{
    match ints {
        [] => Some(&[]),
        [..] => None,
    }
}

fn pages_of_trees(trees: &[Nbt]) -> Option<&[Nbt]>
    ensures { ArePagesOf result (λ ps. ps.now) (bytes_of trees.now) }
{
    if are_pages(trees) { Some(trees) } else { None }
}

// The pages that stand in a list; `None` exactly where it is no list of pages.
fn pages_in_list(list: &NbtList) -> Option<&[Nbt]>
    ensures { ArePagesOf result (λ ps. ps.now) (pages_in (list_view list.now)) }
{
    match list {
        NbtList::Ints(ints) => pages_of_ints(ints.as_slice()),
        NbtList::Trees(trees) => pages_of_trees(trees.as_slice()),
    }
}

// The pages of memory that stand at a place; `None` exactly where it isn't of the layout.
pub(crate) fn pages_of<'a>(selected: Option<Sel<'a>>) -> Option<&'a [Nbt]>
    ensures { ArePagesOf result (λ ps. ps.now) (memory_in (option_map sel selected.entry)) }
{
    match selected {
        Some(Sel::Tree(Nbt::List(list))) => pages_in_list(list),
        _ => None,
    }
}

fn int_of(tree: &Nbt) -> i32
    requires { is_some (word_in (view tree.now)) ≡ true }
    ensures { view tree.now ≡ int result }
{
    match tree {
        Nbt::Int(n) => *n,
        Nbt::Str(_) | Nbt::List(_) | Nbt::Compound(_) => unreachable!(),
    }
}

fn word_of_ints(ints: &[i32], i: usize) -> i32
    requires { i < length ints.now }
    ensures { slice_get (map int ints.now) i ≡ Some (int result) }
{
    ints[i]
}

fn word_of_trees(trees: &[Nbt], i: usize) -> i32
    requires words { is_some (words_in (items (map view trees.now))) ≡ true }
    requires within { i < length trees.now }
    ensures { slice_get (map view trees.now) i ≡ Some (int result) }
{
    int_of(&trees[i])
}

// The word at this place of a page.
fn word_at(list: &NbtList, i: usize) -> i32
    requires { HasWord (list_view list.now) i }
    ensures { slice_get (of_items (list_view list.now)) i ≡ Some (int result) }
{
    match list {
        NbtList::Ints(ints) => word_of_ints(ints.as_slice(), i),
        NbtList::Trees(trees) => word_of_trees(trees.as_slice(), i),
    }
}

// The unsigned number of the same 32 bits.
fn unsigned(word: i32) -> u32
    ensures { result ≡ word_number word }
{
    word.cast_unsigned()
}

// The byte of a word, from the least significant one on.
fn byte_of(word: i32, i: usize) -> u8
    requires { i < 4 }
    ensures { slice_get (four_bytes (word_number word)) i ≡ Some result }
{
    let number = unsigned(word);
    match i {
        0 => (number % 256) as u8,
        1 => (number / 256 % 256) as u8,
        2 => (number / 65_536 % 256) as u8,
        _ => (number / 16_777_216 % 256) as u8,
    }
}

// The byte at this place of a page.
pub(crate) fn byte_at(page: &Nbt, i: usize) -> u8
    requires page { IsPage page.now }
    requires within { i < 65536 }
    ensures { (bytes : List ℕ) → page_in (view page.now) ≡ Some bytes → slice_get bytes i ≡ Some result }
{
    match page {
        Nbt::List(words) => byte_of(word_at(words, i / 4), i % 4),
        Nbt::Int(_) | Nbt::Str(_) | Nbt::Compound(_) => unreachable!(),
    }
}

// So many bytes from an address on.
fn bytes_from(alloc: Global, pages: &[Nbt], at: u32, len: u32) -> Result<Vec<u8>, Memory>
    requires pages { ArePages pages.now }
    requires within { at + len ≤ 65536 * length pages.now }
    ensures { IfOk result (λ v. (bytes : List ℕ) → bytes_of pages.now ≡ Some bytes
        → v.items ≡ take len (drop at bytes)) }
{
    let mut bytes = Vec::new(alloc);
    for i in 0..len as usize {
        let address = at as usize + i;
        let page = &pages[address / PAGE_BYTES];
        bytes.push(byte_at(page, address % PAGE_BYTES))?;
    }
    Ok(bytes)
}

fn hex_line(alloc: Global, bytes: &[u8]) -> Result<String, Memory>
    ensures { IfOk result (λ s. string_bytes s ≡ report.ended_line (encode_lower bytes.now)) }
{
    let mut line = hex::encode(alloc, bytes)?;
    line.push('\n')?;
    Ok(line)
}

// The line of so many bytes from an address on.
pub(crate) fn shown_bytes(alloc: Global, pages: &[Nbt], at: u32, len: u32) -> Result<String, Memory>
    requires { ArePages pages.now }
    ensures { IfOk result (λ s. string_bytes s ≡ report.shown_bytes at len (bytes_of pages.now)) }
{
    let end = at as u128 + len as u128;
    if end > pages.len() as u128 * 65_536 {
        return Ok(String::from_str(alloc, "outside\n")?);
    }
    let bytes = bytes_from(alloc, pages, at, len)?;
    let line = hex_line(alloc, bytes.as_slice())?;
    Ok(line)
}
