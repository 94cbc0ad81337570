// The changes of a tree.
ghost use Rattle.std.specs.Prelude.{◌≡◌};
ghost use Rattle.mc_nbt.specs.Change.{Changes};
ghost use Rattle.mc_nbt.specs.Shape.{IsTree};
ghost use Rattle.mc_nbt.specs.Tree as spec;
ghost use Rattle.mc_nbt.specs.View.{view, parts};
ghost use Rattle.mc_world.specs.steps.Changing.{IsFit, changed};

use mc_nbt::{Changed, Memory, Nbt, NbtMap, Path, append, remove, set};
use std::alloc::Global;

// How a value is put at a path.
#[derive(Clone, Copy)]
pub(crate) enum Way {
    Set,
    Append,
}

// A change at a path.
#[derive(Drop)]
pub(crate) enum TreeChange {
    Put(Way, Nbt),
    Remove,
}

pub(crate) fn empty_compound(alloc: Global) -> Nbt
    ensures { view result ≡ spec.compound spec.no_fields }
{
    Nbt::Compound(NbtMap::from_entries(Vec::new(alloc)))
}

// Makes a change of a tree that may stand in a storage, and leaves one.
pub(crate) fn change_tree(
    alloc: Global,
    tree: &mut Nbt,
    path: &Path,
    change: TreeChange,
) -> Result<Changed, Memory>
    requires tree { IsTree (view tree.old) }
    requires fits { IsFit change }
    ensures changes { Changes result (view tree.old) (view tree.new) (changed change (view tree.old) (parts path.now)) }
    ensures keeps { IsTree (view tree.new) }
{
    match change {
        TreeChange::Put(Way::Set, value) => set(alloc, tree, path, value),
        TreeChange::Put(Way::Append, value) => append(alloc, tree, path, value),
        TreeChange::Remove => Ok(remove(tree, path)),
    }
}
