ghost use Rattle.std.specs.Prelude.{◌≡◌, map, nat_lt};
ghost use Rattle.mc_nbt.specs.Tree.{items, fields, int, depth, items_depth, fields_depth};
ghost use Rattle.mc_nbt.specs.View.{view, entry, list_view, map_view};

use crate::{Nbt, NbtList, NbtMap, Text};

// Whether a tree is deeper than n. It never looks deeper, so its recursion is bounded by n.
#[cycle(deep)]
pub(crate) fn is_deeper(tree: &Nbt, n: usize) -> bool
    ensures { result ≡ nat_lt n (depth (view tree.now)) }
{
    if n == 0 {
        return is_there(tree);
    }
    match tree {
        Nbt::Int(_) => false,
        Nbt::Str(_) => false,
        Nbt::List(list) => list_deeper(list, n - 1),
        Nbt::Compound(map) => map_deeper(map, n - 1),
    }
}

fn is_there(tree: &Nbt) -> bool
    ensures { result ≡ nat_lt 0 (depth (view tree.now)) }
{
    match tree {
        Nbt::Int(_) => true,
        Nbt::Str(_) => true,
        Nbt::List(_) => true,
        Nbt::Compound(_) => true,
    }
}

#[cycle(deep)]
fn list_deeper(list: &NbtList, n: usize) -> bool
    ensures { result ≡ nat_lt n (items_depth (list_view list.now)) }
{
    match list {
        NbtList::Ints(items) => ints_deeper(items.as_slice(), n),
        NbtList::Trees(items) => trees_deeper(items.as_slice(), n),
    }
}

#[cycle(deep)]
fn trees_deeper(trees: &[Nbt], n: usize) -> bool
    ensures { result ≡ nat_lt n (items_depth (items (map view trees.now))) }
{
    for tree in trees {
        if is_deeper(tree, n) {
            return true;
        }
    }
    false
}

#[cycle(deep)]
fn map_deeper(map: &NbtMap, n: usize) -> bool
    ensures { result ≡ nat_lt n (fields_depth (map_view map.now)) }
{
    entries_deeper(map.entries(), n)
}

#[cycle(deep)]
fn entries_deeper(entries: &[(Text, Nbt)], n: usize) -> bool
    ensures { result ≡ nat_lt n (fields_depth (fields (map entry entries.now))) }
{
    for entry in entries {
        if is_deeper(&entry.1, n) {
            return true;
        }
    }
    false
}

#[tactic(auto, using(crate::proofs::DepthLemmas::ints_deep))]
fn ints_deeper(ints: &[i32], n: usize) -> bool
    ensures { result ≡ nat_lt n (items_depth (items (map int ints.now))) }
{
    n == 0 && !ints.is_empty()
}
