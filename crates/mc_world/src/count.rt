// The number that a `get` of a tree gives.
ghost use Rattle.std.specs.Prelude.{◌≡◌, length};
ghost use Rattle.mc_cmd.specs.World as spec;
ghost use Rattle.mc_nbt.specs.Tree.{of_fields, of_items};
ghost use Rattle.mc_nbt.specs.View.{list_view, map_view, sel, view};

use mc_nbt::{Nbt, NbtList, NbtMap, Sel};

fn count(n: usize) -> i32
    ensures { result ≡ spec.count n }
{
    if n < 2_147_483_647 {
        n as i32
    } else {
        2_147_483_647
    }
}

fn count_items(list: &NbtList) -> i32
    ensures { result ≡ spec.count (length (of_items (list_view list.now))) }
{
    match list {
        NbtList::Ints(items) => count(items.len()),
        NbtList::Trees(items) => count(items.len()),
    }
}

fn count_fields(map: &NbtMap) -> i32
    ensures { result ≡ spec.count (length (of_fields (map_view map.now))) }
{
    count(map.entries().len())
}

fn count_of(tree: &Nbt) -> i32
    ensures { result ≡ spec.number_of (view tree.now) }
{
    match tree {
        Nbt::Int(z) => *z,
        Nbt::Str(s) => count(s.len()),
        Nbt::List(list) => count_items(list),
        Nbt::Compound(map) => count_fields(map),
    }
}

pub(crate) fn number_of(selected: Sel<'_>) -> i32
    ensures { result ≡ spec.number_of (sel selected.entry) }
{
    match selected {
        Sel::Int(z) => z,
        Sel::Tree(tree) => count_of(tree),
    }
}
