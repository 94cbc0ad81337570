ghost use Rattle.std.specs.Prelude.{◌≡◌, IfSome, option_map, map};
ghost use Rattle.mc_nbt.specs.Tree as spec;
ghost use Rattle.mc_nbt.specs.View.{view, sel, LendsNoInt, part, parts, list_view};

use crate::{Nbt, NbtList, Path, PathPart};

/// What a path selects: an int always as the number itself, any other tree lent.
#[derive(Clone, Copy)]
pub enum Sel<'a> {
    Int(i32),
    Tree(&'a Nbt),
}

// The index that a place names in a list of this length.
pub(crate) fn index_of(len: usize, place: i32) -> Option<usize>
    ensures { result ≡ spec.index_of len place }
{
    if place >= 0 {
        let index = place as usize;
        if index < len { Some(index) } else { None }
    } else {
        let back = (-(place as i64)) as usize;
        if back <= len { Some(len - back) } else { None }
    }
}

fn selected(tree: &Nbt) -> Sel<'_>
    ensures is { sel result ≡ view tree.now }
    ensures ints { LendsNoInt result }
{
    match tree {
        Nbt::Int(z) => Sel::Int(*z),
        Nbt::Str(_) => Sel::Tree(tree),
        Nbt::List(_) => Sel::Tree(tree),
        Nbt::Compound(_) => Sel::Tree(tree),
    }
}

fn int_at(items: &[i32], place: i32) -> Option<i32>
    ensures { option_map spec.int result ≡ spec.item_at (map spec.int items.now) place }
{
    let index = index_of(items.len(), place)?;
    items.get(index).copied()
}

fn tree_at(items: &[Nbt], place: i32) -> Option<&Nbt>
    ensures { option_map (λ t. view t.now) result ≡ spec.item_at (map view items.now) place }
{
    let index = index_of(items.len(), place)?;
    items.get(index)
}

#[tactic(auto, using(crate::proofs::ViewLemmas::opened))]
fn item_of(list: &NbtList, place: i32) -> Option<Sel<'_>>
    ensures is { option_map sel result ≡ spec.item_at (spec.of_items (list_view list.now)) place }
    ensures ints { IfSome result LendsNoInt }
{
    match list {
        NbtList::Ints(items) => match int_at(items.as_slice(), place) {
            Some(z) => Some(Sel::Int(z)),
            None => None,
        },
        NbtList::Trees(items) => match tree_at(items.as_slice(), place) {
            Some(t) => Some(selected(t)),
            None => None,
        },
    }
}

fn child_of<'a>(tree: &'a Nbt, step: &PathPart) -> Option<Sel<'a>>
    ensures is { option_map sel result ≡ spec.child (view tree.now) (part step.now) }
    ensures ints { IfSome result LendsNoInt }
{
    match step {
        PathPart::Key(name) => match tree {
            Nbt::Compound(map) => match map.get(name) {
                Some(t) => Some(selected(t)),
                None => None,
            },
            _ => None,
        },
        PathPart::Place(place) => match tree {
            Nbt::List(list) => item_of(list, *place),
            _ => None,
        },
    }
}

pub(crate) fn select<'a>(tree: &'a Nbt, path: &[PathPart]) -> Option<Sel<'a>>
    ensures is { option_map sel result ≡ spec.select (view tree.now) (parts path.now) }
    ensures ints { IfSome result LendsNoInt }
{
    match path {
        [] => Some(selected(tree)),
        [first, rest @ ..] => match child_of(tree, first)? {
            Sel::Int(z) => {
                if rest.is_empty() {
                    Some(Sel::Int(z))
                } else {
                    None
                }
            }
            Sel::Tree(t) => select(t, rest),
        },
    }
}

/// What the path selects in the tree: by keys through compounds and by places through lists. `None` exactly
/// where it selects nothing; an int is told as the number, and no int is lent. It takes no memory, and doesn't
/// walk over a list.
pub fn get<'a>(tree: &'a Nbt, path: &Path) -> Option<Sel<'a>>
    ensures is { option_map sel result ≡ spec.select (view tree.now) (parts path.now) }
    ensures ints { IfSome result LendsNoInt }
{
    select(tree, path.parts())
}
