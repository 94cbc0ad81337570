// A `remove` at the last step of a path.
ghost use Rattle.std.specs.Prelude.{◌≡◌, map, option_map, false};
ghost use Rattle.mc_nbt.specs.Tree as spec;
ghost use Rattle.mc_nbt.specs.View.{view, part, map_view, list_view};
ghost use Rattle.mc_nbt.specs.steps.Edit.{IsEdit, edited, is_short};

use crate::edit::Edited;
use crate::edit::open::index_of_key;
use crate::lookup::index_of;
use crate::tree::{compound, ints_of, list_of};
use crate::{Nbt, NbtList, NbtMap, PathPart, Text};

fn leave_field(map: NbtMap, name: &Text) -> Edited
    ensures edits { IsEdit (edited result) (spec.compound (map_view map)) (option_map (λ u. spec.compound_of (spec.without name.now (spec.of_fields (map_view map)))) (spec.find name.now (spec.of_fields (map_view map)))) }
    ensures spares { is_short (edited result) ≡ false }
{
    let NbtMap { mut entries } = map;
    match index_of_key(entries.as_slice(), name) {
        None => Edited::Failed(compound(entries)),
        Some(i) => {
            let (_name, child) = entries.remove(i);
            drop(child);
            Edited::Made(compound(entries))
        }
    }
}

fn leave_tree(mut items: Vec<Nbt>, place: i32) -> Edited
    ensures edits { IsEdit (edited result) (spec.list_of (map view items.items)) (spec.without_at (map view items.items) place) }
    ensures spares { is_short (edited result) ≡ false }
{
    match index_of(items.len(), place) {
        None => Edited::Failed(list_of(items)),
        Some(i) => {
            let child = items.remove(i);
            drop(child);
            Edited::Made(list_of(items))
        }
    }
}

fn leave_int(mut items: Vec<i32>, place: i32) -> Edited
    ensures edits { IsEdit (edited result) (spec.list_of (map spec.int items.items)) (spec.without_at (map spec.int items.items) place) }
    ensures spares { is_short (edited result) ≡ false }
{
    match index_of(items.len(), place) {
        None => Edited::Failed(ints_of(items)),
        Some(i) => {
            let _z = items.remove(i);
            Edited::Made(ints_of(items))
        }
    }
}

fn leave_list(list: NbtList, place: i32) -> Edited
    ensures edits { IsEdit (edited result) (spec.list (list_view list)) (spec.without_at (spec.of_items (list_view list)) place) }
    ensures spares { is_short (edited result) ≡ false }
{
    match list {
        NbtList::Ints(items) => leave_int(items, place),
        NbtList::Trees(items) => leave_tree(items, place),
    }
}

pub(crate) fn leave_out(tree: Nbt, step: &PathPart) -> Edited
    ensures edits { IsEdit (edited result) (view tree) (spec.leave_out (view tree) (part step.now)) }
    ensures spares { is_short (edited result) ≡ false }
{
    match tree {
        Nbt::Compound(map) => match step {
            PathPart::Key(name) => leave_field(map, name),
            PathPart::Place(_) => Edited::Failed(Nbt::Compound(map)),
        },
        Nbt::List(list) => match step {
            PathPart::Place(place) => leave_list(list, *place),
            PathPart::Key(_) => Edited::Failed(Nbt::List(list)),
        },
        Nbt::Int(z) => Edited::Failed(Nbt::Int(z)),
        Nbt::Str(s) => Edited::Failed(Nbt::Str(s)),
    }
}
