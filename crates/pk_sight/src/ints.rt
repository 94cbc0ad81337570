// Lists of ints.
ghost use Rattle.std.specs.Prelude.{◌≡◌, List, ℤ, IfOk, MatchOption, map};
ghost use Rattle.mc_nbt.specs.Tree.{int, items};
ghost use Rattle.mc_nbt.specs.View.{list_view, view};
ghost use Rattle.cc_line.specs.Running.{an_int};
ghost use Rattle.cc_line.specs.State.{ints};

use mc_nbt::{Memory, Nbt, NbtList};
use std::alloc::Global;

/// The ints of a list that has nothing else; `None` exactly where the tree is no such list.
///
/// # Errors
///
/// `Memory` where there is no room for them.
pub fn ints_in(alloc: Global, tree: &Nbt) -> Result<Option<Vec<i32>>, Memory>
    ensures { IfOk result (λ o. MatchOption o ((zs : List ℤ) → view tree.now ≡ ints zs → ⊥) (λ zs. view tree.now ≡ ints zs.items)) }
{
    match tree {
        Nbt::List(list) => ints_of_list(alloc, list),
        Nbt::Int(_) | Nbt::Str(_) | Nbt::Compound(_) => Ok(None),
    }
}

fn ints_of_list(alloc: Global, list: &NbtList) -> Result<Option<Vec<i32>>, Memory>
    ensures { IfOk result (λ o. MatchOption o ((zs : List ℤ) → list_view list.now ≡ items (map int zs) → ⊥)
        (λ zs. list_view list.now ≡ items (map int zs.items))) }
{
    match list {
        NbtList::Ints(found) => Ok(Some(Vec::from_slice(alloc, found.as_slice())?)),
        NbtList::Trees(trees) => ints_of_trees(alloc, trees.as_slice()),
    }
}

fn ints_of_trees(alloc: Global, trees: &[Nbt]) -> Result<Option<Vec<i32>>, Memory>
    ensures { IfOk result (λ o. MatchOption o ((zs : List ℤ) → map view trees.now ≡ map int zs → ⊥)
        (λ zs. map view trees.now ≡ map int zs.items)) }
{
    let mut found = Vec::with_capacity(alloc, trees.len())?;
    for tree in trees {
        match int_of(tree) {
            Some(z) => found.push(z)?,
            None => return Ok(None),
        }
    }
    Ok(Some(found))
}

fn int_of(tree: &Nbt) -> Option<i32>
    ensures { result ≡ an_int (view tree.now) }
{
    match tree {
        Nbt::Int(z) => Some(*z),
        Nbt::Str(_) | Nbt::List(_) | Nbt::Compound(_) => None,
    }
}
