// What stands in a tree: under the keys of a compound, and in a list. A number that isn't there counts as 0.
ghost use Rattle.std.specs.Prelude.{◌≡◌, ◌++◌, OnOk, option_map, map};
ghost use Rattle.mc_nbt.specs.Tree as spec;
ghost use Rattle.mc_nbt.specs.View.{view, entry, list_view};
ghost use Rattle.pk_entries.specs.steps.Reading.{int_in, int_of, ints_in, ints_of, natural};

use mc_nbt::{Memory, Nbt, NbtList, Text};

fn find_entry<'a>(entries: &'a [(Text, Nbt)], key: &str) -> Option<&'a Nbt>
    ensures { option_map (λ t. view t.now) result ≡ spec.find key.now (map entry entries.now) }
{
    for entry in entries {
        if key == entry.0.as_str() {
            return Some(&entry.1);
        }
    }
    None
}

/// What stands under the key; `None` where nothing does.
pub(crate) fn find<'a>(tree: &'a Nbt, key: &str) -> Option<&'a Nbt>
    ensures { option_map (λ t. view t.now) result ≡ spec.child (view tree.now) (spec.key key.now) }
{
    match tree {
        Nbt::Compound(map) => find_entry(map.entries(), key),
        _ => None,
    }
}

// The int that a tree is.
fn int_of(tree: &Nbt) -> i32
    ensures { result ≡ int_of (view tree.now) }
{
    match tree {
        Nbt::Int(z) => *z,
        _ => 0,
    }
}

/// The int under the key.
pub(crate) fn int_under(tree: &Nbt, key: &str) -> i32
    ensures { result ≡ int_in (spec.child (view tree.now) (spec.key key.now)) }
{
    match find(tree, key) {
        Some(there) => int_of(there),
        None => 0,
    }
}

/// The number under the key.
pub(crate) fn number_under(tree: &Nbt, key: &str) -> u32
    ensures { result ≡ natural (int_in (spec.child (view tree.now) (spec.key key.now))) }
{
    let z = int_under(tree, key);
    if z < 0 { 0 } else { z as u32 }
}

fn push_each(trees: &[Nbt], ints: &mut Vec<i32>) -> Result<(), Memory>
    ensures { OnOk result (ints.new.items ≡ ints.old.items ++ map int_of (map view trees.now)) }
{
    for tree in trees {
        ints.push(int_of(tree))?;
    }
    Ok(())
}

fn push_items(list: &NbtList, ints: &mut Vec<i32>) -> Result<(), Memory>
    ensures { OnOk result (ints.new.items ≡ ints.old.items ++ ints_of (spec.list (list_view list.now))) }
{
    match list {
        NbtList::Ints(items) => {
            ints.extend_from_slice(items.as_slice())?;
            Ok(())
        }
        NbtList::Trees(items) => push_each(items.as_slice(), ints),
    }
}

fn push_ints(tree: &Nbt, ints: &mut Vec<i32>) -> Result<(), Memory>
    ensures { OnOk result (ints.new.items ≡ ints.old.items ++ ints_of (view tree.now)) }
{
    match tree {
        Nbt::List(list) => push_items(list, ints),
        _ => Ok(()),
    }
}

/// Adds the ints of the list under the key, where one stands there.
pub(crate) fn push_under(tree: &Nbt, key: &str, ints: &mut Vec<i32>) -> Result<(), Memory>
    ensures { OnOk result (ints.new.items
        ≡ ints.old.items ++ ints_in (spec.child (view tree.now) (spec.key key.now))) }
{
    match find(tree, key) {
        Some(there) => push_ints(there, ints),
        None => Ok(()),
    }
}
