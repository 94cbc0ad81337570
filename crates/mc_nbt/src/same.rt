ghost use Rattle.std.specs.Prelude.{◌≡◌, map};
ghost use Rattle.mc_nbt.specs.Tree.{items, fields, int, tree_same, items_same, fields_same};
ghost use Rattle.mc_nbt.specs.View.{view, entry, list_view};

use crate::{Nbt, NbtList, Text};

/// Whether two trees are equal. How their lists are kept makes no difference.
#[cycle(same)]
pub fn is_same(left: &Nbt, right: &Nbt) -> bool
    ensures { result ≡ tree_same (view left.now) (view right.now) }
{
    match left {
        Nbt::Int(a) => match right {
            Nbt::Int(b) => a == b,
            _ => false,
        },
        Nbt::Str(a) => match right {
            Nbt::Str(b) => a == b,
            _ => false,
        },
        Nbt::List(a) => match right {
            Nbt::List(b) => lists_same(a, b),
            _ => false,
        },
        Nbt::Compound(a) => match right {
            Nbt::Compound(b) => entries_same(a.entries(), b.entries()),
            _ => false,
        },
    }
}

#[cycle(same)]
fn lists_same(left: &NbtList, right: &NbtList) -> bool
    ensures { result ≡ items_same (list_view left.now) (list_view right.now) }
{
    match left {
        NbtList::Ints(a) => match right {
            NbtList::Ints(b) => ints_same(a.as_slice(), b.as_slice()),
            NbtList::Trees(b) => ints_are(a.as_slice(), b.as_slice()),
        },
        NbtList::Trees(a) => match right {
            NbtList::Ints(b) => are_ints(a.as_slice(), b.as_slice()),
            NbtList::Trees(b) => trees_same(a.as_slice(), b.as_slice()),
        },
    }
}

#[cycle(same)]
fn trees_same(left: &[Nbt], right: &[Nbt]) -> bool
    ensures { result ≡ items_same (items (map view left.now)) (items (map view right.now)) }
{
    if left.len() != right.len() {
        return false;
    }
    for (a, b) in left.iter().zip(right) {
        if !is_same(a, b) {
            return false;
        }
    }
    true
}

#[cycle(same)]
fn entries_same(left: &[(Text, Nbt)], right: &[(Text, Nbt)]) -> bool
    ensures { result ≡ fields_same (fields (map entry left.now)) (fields (map entry right.now)) }
{
    if left.len() != right.len() {
        return false;
    }
    for (a, b) in left.iter().zip(right) {
        if a.0 != b.0 || !is_same(&a.1, &b.1) {
            return false;
        }
    }
    true
}

fn ints_same(left: &[i32], right: &[i32]) -> bool
    ensures { result ≡ items_same (items (map int left.now)) (items (map int right.now)) }
{
    if left.len() != right.len() {
        return false;
    }
    for (a, b) in left.iter().zip(right) {
        if *a != *b {
            return false;
        }
    }
    true
}

// Whether trees are these ints.
fn are_ints(trees: &[Nbt], ints: &[i32]) -> bool
    ensures { result ≡ items_same (items (map view trees.now)) (items (map int ints.now)) }
{
    if trees.len() != ints.len() {
        return false;
    }
    for (tree, z) in trees.iter().zip(ints) {
        if !is_int(tree, *z) {
            return false;
        }
    }
    true
}

fn ints_are(ints: &[i32], trees: &[Nbt]) -> bool
    ensures { result ≡ items_same (items (map int ints.now)) (items (map view trees.now)) }
{
    are_ints(trees, ints)
}

pub(crate) fn is_int(tree: &Nbt, z: i32) -> bool
    ensures { result ≡ tree_same (view tree.now) (int z) }
{
    match tree {
        Nbt::Int(y) => *y == z,
        _ => false,
    }
}
