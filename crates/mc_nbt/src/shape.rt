// Which trees may stand in a storage.
ghost use Rattle.std.specs.Prelude.{◌≡◌, ◌&&◌, map};
ghost use Rattle.std.specs.List.{list_all};
ghost use Rattle.mc_nbt.specs.Shape as shape;
ghost use Rattle.mc_nbt.specs.Tree.{depth, fields, items, kind, of_fields, of_items};
ghost use Rattle.mc_nbt.specs.View.{entry, list_view, map_view, view};
ghost use Rattle.mc_nbt.specs.Word.{is_int as is_int_number, is_string_byte as is_byte_of_string};

use crate::byte::{is_in_range, is_string_byte};
use crate::depth::is_deeper;
use crate::key::is_key;
use crate::kind::are_one_kind;
use crate::{Nbt, NbtList, NbtMap, Text};

// The levels that a tree may have.
const MAX_DEPTH: usize = 64;

/// Whether the tree may stand in a storage: its strings are printable, its keys are keys and rise in the order of
/// their bytes, the elements of each of its lists are of one kind, and it is at most 64 levels deep. It looks no
/// deeper than that.
#[tactic(auto, using(crate::proofs::ShapeLemmas::tree_tests))]
pub fn is_tree(tree: &Nbt) -> bool
    ensures { result ≡ shape.is_tree (view tree.now) }
{
    !is_deeper(tree, MAX_DEPTH) && is_shaped(tree)
}

#[cycle(shaped)]
fn is_shaped(tree: &Nbt) -> bool
    ensures { result ≡ shape.is_shaped (view tree.now) }
{
    match tree {
        Nbt::Int(z) => is_in_range(*z),
        Nbt::Str(s) => are_string_bytes(s.as_bytes()),
        Nbt::List(list) => is_list_shaped(list),
        Nbt::Compound(map) => is_map_shaped(map),
    }
}

#[cycle(shaped)]
fn is_list_shaped(list: &NbtList) -> bool
    ensures { result ≡ (shape.items_shaped (list_view list.now) && shape.is_one_kind (of_items (list_view list.now))) }
{
    match list {
        NbtList::Ints(ints) => are_in_range(ints.as_slice()),
        NbtList::Trees(trees) => {
            are_trees_shaped(trees.as_slice()) && are_all_one_kind(trees.as_slice())
        }
    }
}

fn are_in_range(ints: &[i32]) -> bool
    ensures { result ≡ list_all is_int_number ints.now }
{
    ints.iter().all(|z| is_in_range(*z))
}

#[cycle(shaped)]
fn are_trees_shaped(trees: &[Nbt]) -> bool
    ensures { result ≡ shape.items_shaped (items (map view trees.now)) }
{
    for tree in trees {
        if !is_shaped(tree) {
            return false;
        }
    }
    true
}

#[cycle(shaped)]
fn is_map_shaped(map: &NbtMap) -> bool
    ensures { result ≡ (shape.fields_shaped (map_view map.now) && shape.is_rising (of_fields (map_view map.now))) }
{
    are_entries_shaped(map.entries()) && are_rising(map.entries())
}

#[cycle(shaped)]
fn are_entries_shaped(entries: &[(Text, Nbt)]) -> bool
    ensures { result ≡ shape.fields_shaped (fields (map entry entries.now)) }
{
    for entry in entries {
        if !is_key(entry.0.as_bytes()) || !is_shaped(&entry.1) {
            return false;
        }
    }
    true
}

fn are_string_bytes(s: &[u8]) -> bool
    ensures { result ≡ list_all is_byte_of_string s.now }
{
    s.iter().all(|c| is_string_byte(*c))
}

fn are_all_one_kind(trees: &[Nbt]) -> bool
    ensures { result ≡ shape.is_one_kind (map view trees.now) }
{
    match trees {
        [] => true,
        [first, rest @ ..] => are_of_kind(first, rest),
    }
}

fn are_of_kind(first: &Nbt, trees: &[Nbt]) -> bool
    ensures { result ≡ shape.all_of_kind (kind (view first.now)) (map view trees.now) }
{
    for tree in trees {
        if !are_one_kind(first, tree) {
            return false;
        }
    }
    true
}

fn are_rising(entries: &[(Text, Nbt)]) -> bool
    ensures { result ≡ shape.is_rising (map entry entries.now) }
{
    match entries {
        [] => true,
        [first, rest @ ..] => rise_after(&first.0, rest),
    }
}

fn rise_after(first: &Text, entries: &[(Text, Nbt)]) -> bool
    ensures { result ≡ shape.rise_after first.now (map entry entries.now) }
{
    let mut last = first;
    for entry in entries {
        if *last >= entry.0 {
            return false;
        }
        last = &entry.0;
    }
    true
}
