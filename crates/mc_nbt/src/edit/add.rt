// One more element at the end of a list.
ghost use Rattle.std.specs.Prelude.{◌≡◌, ◌++◌, ◌∷◌, [], map, MatchResult, Some};
ghost use Rattle.mc_nbt.specs.Tree as spec;
ghost use Rattle.mc_nbt.specs.View.{view, list_view};
ghost use Rattle.mc_nbt.specs.steps.Edit.{IsEdit, edited};

use crate::edit::put::int_of;
use crate::edit::{Edited, refuse};
use crate::kind::are_one_kind;
use crate::tree::{ints_of, list_of};
use crate::{Nbt, NbtList};
use std::alloc::Global;

fn push_int(mut items: Vec<i32>, z: i32) -> Result<Vec<i32>, Vec<i32>>
    ensures { MatchResult result (λ new. new.items ≡ items.items ++ z ∷ []) (λ old. old.items ≡ items.items) }
{
    match items.push(z) {
        Ok(()) => Ok(items),
        Err(refused) => {
            drop(refused);
            Err(items)
        }
    }
}

fn push_tree(mut items: Vec<Nbt>, v: Nbt) -> Result<Vec<Nbt>, Vec<Nbt>>
    ensures { MatchResult result (λ new. new.items ≡ items.items ++ v ∷ []) (λ old. old.items ≡ items.items) }
{
    match items.push(v) {
        Ok(()) => Ok(items),
        Err(refused) => {
            drop(refused);
            Err(items)
        }
    }
}

fn add_int(items: Vec<i32>, z: i32) -> Edited
    ensures { IsEdit (edited result) (spec.list_of (map spec.int items.items)) (Some (spec.list_of (map spec.int items.items ++ spec.int z ∷ []))) }
{
    match push_int(items, z) {
        Ok(items) => Edited::Made(ints_of(items)),
        Err(items) => Edited::Short(ints_of(items)),
    }
}

fn add_tree(items: Vec<Nbt>, v: Nbt) -> Edited
    ensures { IsEdit (edited result) (spec.list_of (map view items.items)) (Some (spec.list_of (map view items.items ++ view v ∷ []))) }
{
    match push_tree(items, v) {
        Ok(items) => Edited::Made(list_of(items)),
        Err(items) => Edited::Short(list_of(items)),
    }
}

// The first element of a list, which from then on is kept as ints if it is an int.
fn add_first(alloc: Global, v: Nbt) -> Edited
    ensures { IsEdit (edited result) (spec.list spec.no_items) (Some (spec.list_of (view v ∷ []))) }
{
    match v {
        Nbt::Int(z) => add_int(Vec::new(alloc), z),
        Nbt::Str(s) => add_tree(Vec::new(alloc), Nbt::Str(s)),
        Nbt::List(list) => add_tree(Vec::new(alloc), Nbt::List(list)),
        Nbt::Compound(map) => add_tree(Vec::new(alloc), Nbt::Compound(map)),
    }
}

fn add_to_ints(alloc: Global, items: Vec<i32>, v: Nbt) -> Edited
    ensures { IsEdit (edited result) (spec.list_of (map spec.int items.items)) (spec.add_item (map spec.int items.items) (view v)) }
{
    if items.is_empty() {
        return add_first(alloc, v);
    }
    match int_of(v) {
        Some(z) => add_int(items, z),
        None => Edited::Failed(ints_of(items)),
    }
}

fn add_to_trees(alloc: Global, items: Vec<Nbt>, v: Nbt) -> Edited
    ensures { IsEdit (edited result) (spec.list_of (map view items.items)) (spec.add_item (map view items.items) (view v)) }
{
    match items.first() {
        None => add_first(alloc, v),
        Some(first) => {
            if are_one_kind(first, &v) {
                add_tree(items, v)
            } else {
                refuse(list_of(items), v)
            }
        }
    }
}

fn add_to_list(alloc: Global, list: NbtList, v: Nbt) -> Edited
    ensures { IsEdit (edited result) (spec.list (list_view list)) (spec.add_item (spec.of_items (list_view list)) (view v)) }
{
    match list {
        NbtList::Ints(items) => add_to_ints(alloc, items, v),
        NbtList::Trees(items) => add_to_trees(alloc, items, v),
    }
}

pub(crate) fn add_to(alloc: Global, tree: Nbt, v: Nbt) -> Edited
    ensures { IsEdit (edited result) (view tree) (spec.add_to (view v) (view tree)) }
{
    match tree {
        Nbt::List(list) => add_to_list(alloc, list, v),
        Nbt::Int(z) => refuse(Nbt::Int(z), v),
        Nbt::Str(s) => refuse(Nbt::Str(s), v),
        Nbt::Compound(map) => refuse(Nbt::Compound(map), v),
    }
}
