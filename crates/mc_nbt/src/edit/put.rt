// A `set` at the last step of a path.
ghost use Rattle.std.specs.Prelude.{◌≡◌, ◌<◌, map, length, slice_set, slice_get, Some, false, MatchOption, nat_eq};
ghost use Rattle.mc_nbt.specs.Tree as spec;
ghost use Rattle.mc_nbt.specs.View.{view, part, map_view, list_view};
ghost use Rattle.mc_nbt.specs.steps.Edit.{IsEdit, edited};

use crate::edit::open::{add_field, index_of_key, with_field, with_item};
use crate::edit::{Edited, refuse};
use crate::kind::are_one_kind;
use crate::lookup::index_of;
use crate::tree::{ints_of, list_of};
use crate::{Nbt, NbtList, NbtMap, PathPart, Text};

fn put_field(map: NbtMap, name: &Text, v: Nbt) -> Edited
    ensures { IsEdit (edited result) (spec.compound (map_view map)) (Some (spec.compound_of (spec.put name.now (view v) (spec.of_fields (map_view map))))) }
{
    let NbtMap { entries } = map;
    match index_of_key(entries.as_slice(), name) {
        None => add_field(entries, name, v),
        Some(i) => Edited::Made(with_field(entries, i, v)),
    }
}

fn is_match(items: &[Nbt], i: usize, v: &Nbt) -> bool
    requires { i < length items.now }
    ensures { result ≡ spec.is_of_kind (slice_get (map view items.now) i) (view v.now) }
{
    are_one_kind(&items[i], v)
}

fn put_tree(items: Vec<Nbt>, place: i32, v: Nbt) -> Edited
    ensures { IsEdit (edited result) (spec.list_of (map view items.items)) (spec.put_in (map view items.items) place (view v)) }
{
    match index_of(items.len(), place) {
        None => refuse(list_of(items), v),
        Some(i) => {
            if is_match(items.as_slice(), i, &v) {
                Edited::Made(with_item(items, i, v))
            } else {
                refuse(list_of(items), v)
            }
        }
    }
}

// The int that a tree is, if it is one.
pub(crate) fn int_of(tree: Nbt) -> Option<i32>
    ensures { MatchOption result (nat_eq 0 (spec.kind (view tree)) ≡ false) (λ z. view tree ≡ spec.int z) }
{
    match tree {
        Nbt::Int(z) => Some(z),
        Nbt::Str(_) => None,
        Nbt::List(_) => None,
        Nbt::Compound(_) => None,
    }
}

fn put_number(mut items: Vec<i32>, i: usize, z: i32) -> Nbt
    requires { i < length items.items }
    ensures { view result ≡ spec.list_of (slice_set (map spec.int items.items) i (spec.int z)) }
{
    items[i] = z;
    ints_of(items)
}

fn put_int(items: Vec<i32>, place: i32, v: Nbt) -> Edited
    ensures { IsEdit (edited result) (spec.list_of (map spec.int items.items)) (spec.put_in (map spec.int items.items) place (view v)) }
{
    match index_of(items.len(), place) {
        None => refuse(ints_of(items), v),
        Some(i) => match int_of(v) {
            Some(z) => Edited::Made(put_number(items, i, z)),
            None => Edited::Failed(ints_of(items)),
        },
    }
}

fn put_in_list(list: NbtList, place: i32, v: Nbt) -> Edited
    ensures { IsEdit (edited result) (spec.list (list_view list)) (spec.put_in (spec.of_items (list_view list)) place (view v)) }
{
    match list {
        NbtList::Ints(items) => put_int(items, place, v),
        NbtList::Trees(items) => put_tree(items, place, v),
    }
}

pub(crate) fn put_last(tree: Nbt, step: &PathPart, v: Nbt) -> Edited
    ensures { IsEdit (edited result) (view tree) (spec.put_last (view tree) (part step.now) (view v)) }
{
    match tree {
        Nbt::Compound(map) => match step {
            PathPart::Key(name) => put_field(map, name, v),
            PathPart::Place(_) => refuse(Nbt::Compound(map), v),
        },
        Nbt::List(list) => match step {
            PathPart::Place(place) => put_in_list(list, *place, v),
            PathPart::Key(_) => refuse(Nbt::List(list), v),
        },
        Nbt::Int(z) => refuse(Nbt::Int(z), v),
        Nbt::Str(s) => refuse(Nbt::Str(s), v),
    }
}
