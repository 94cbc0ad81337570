ghost use Rattle.std.specs.Prelude.{◌≡◌, ◌≤◌, ◌+◌, length, nat_lt, ◌||◌};
ghost use Rattle.mc_nbt.specs.Shape.{IsTree};
ghost use Rattle.mc_nbt.specs.Tree as spec;
ghost use Rattle.mc_nbt.specs.View.{view, parts};
ghost use Rattle.mc_nbt.specs.Change.{Changes, IsChanged};
ghost use Rattle.mc_nbt.specs.steps.Edit.{IsSettled, edited, fails};

mod add;
mod descent;
mod leave;
mod open;
mod put;

use crate::depth::is_deeper;
use crate::lookup::{Sel, select};
use crate::same::{is_int, is_same};
use crate::{Memory, Nbt, Path, PathPart};
use descent::{append_at, remove_at, set_at};
use std::alloc::Global;
use std::mem;

/// Whether a change was made.
#[derive(Clone, Copy, Debug, PartialEq, Eq)]
pub enum Changed {
    Yes,
    /// It fails, and nothing is changed.
    No,
}

// A tree after a change, or the tree as it was: where the change fails, and where memory is short.
#[derive(Drop)]
pub(crate) enum Edited {
    Made(Nbt),
    Failed(Nbt),
    Short(Nbt),
}

// The tree as it was, without the value.
pub(crate) fn refuse(tree: Nbt, value: Nbt) -> Edited
    ensures { edited result ≡ fails (view tree) }
{
    drop(value);
    Edited::Failed(tree)
}

fn is_set_already(tree: &Nbt, path: &[PathPart], value: &Nbt) -> bool
    ensures { result ≡ spec.is_already (spec.select (view tree.now) (parts path.now)) (view value.now) }
{
    match select(tree, path) {
        None => false,
        Some(Sel::Int(z)) => is_int(value, z),
        Some(Sel::Tree(there)) => is_same(there, value),
    }
}

// Whether a value at the end of so many steps would stand deeper than trees may be.
fn is_too_deep(steps: usize, value: &Nbt) -> bool
    requires { steps ≤ 64 }
    ensures { result ≡ nat_lt 64 (steps + spec.depth (view value.now)) }
{
    is_deeper(value, 64 - steps)
}

// Whether a `set` fails whatever the change at the path would do.
fn is_refused(tree: &Nbt, path: &[PathPart], value: &Nbt) -> bool
    requires { length path.now ≤ 16 }
    ensures { result ≡ (spec.is_already (spec.select (view tree.now) (parts path.now)) (view value.now) || nat_lt 64 (length path.now + spec.depth (view value.now))) }
{
    is_set_already(tree, path, value) || is_too_deep(path.len(), value)
}

fn put_back(tree: &mut Nbt, t: Nbt)
    ensures { view tree.new ≡ view t }
{
    *tree = t;
}

// The answer of a change by value, whose tree is put back.
fn settle(tree: &mut Nbt, done: Edited) -> Result<Changed, Memory>
    ensures { IsSettled (edited done) result (view tree.new) }
{
    match done {
        Edited::Made(t) => {
            put_back(tree, t);
            Ok(Changed::Yes)
        }
        Edited::Failed(t) => {
            put_back(tree, t);
            Ok(Changed::No)
        }
        Edited::Short(t) => {
            put_back(tree, t);
            Err(Memory)
        }
    }
}

/// Sets what stands at the path to the value. Compounds that are missing on the way are made, and a new key goes
/// in front of the first greater one.
///
/// It answers `No`, and changes nothing, exactly where the path leads nowhere, where an element of a list would
/// be exchanged for one of another kind, where an equal tree stands there already, and where the tree would be
/// more than 64 deep. What it leaves is a tree that may stand in a storage, as what it was given is. An element
/// of a list of ints is reached without a walk over the list.
///
/// # Errors
///
/// `Memory` where there is no room for a new key; the tree is then as it was.
pub fn set(alloc: Global, tree: &mut Nbt, path: &Path, value: Nbt) -> Result<Changed, Memory>
    requires tree { IsTree (view tree.old) }
    requires value { IsTree (view value) }
    ensures changes { Changes result (view tree.old) (view tree.new) (spec.set (view tree.old) (parts path.now) (view value)) }
    ensures keeps { IsTree (view tree.new) }
{
    let (first, rest) = path.split();
    if is_refused(tree, path.parts(), &value) {
        drop(value);
        return Ok(Changed::No);
    }
    let old = mem::replace(tree, Nbt::Int(0));
    settle(tree, set_at(alloc, old, first, rest, value))
}

/// Adds the value at the end of the list at the path. Compounds that are missing on the way are made, and a
/// missing last key becomes a list.
///
/// It answers `No`, and changes nothing, exactly where the path leads nowhere, where something other than a list
/// stands there, where the list's elements are of another kind, and where the tree would be more than 64 deep.
/// What it leaves is a tree that may stand in a storage, as what it was given is.
///
/// # Errors
///
/// `Memory` where there is no room for the element or a new key; the tree is then as it was.
pub fn append(alloc: Global, tree: &mut Nbt, path: &Path, value: Nbt) -> Result<Changed, Memory>
    requires tree { IsTree (view tree.old) }
    requires value { IsTree (view value) }
    ensures changes { Changes result (view tree.old) (view tree.new) (spec.append (view tree.old) (parts path.now) (view value)) }
    ensures keeps { IsTree (view tree.new) }
{
    let (first, rest) = path.split();
    if is_too_deep(path.parts().len() + 1, &value) {
        drop(value);
        return Ok(Changed::No);
    }
    let old = mem::replace(tree, Nbt::Int(0));
    settle(tree, append_at(alloc, old, first, rest, value))
}

/// Takes away the key or the list place that the path leads to.
///
/// It answers `No`, and changes nothing, exactly where the path selects nothing. It takes no memory. What it
/// leaves may stand in a storage if the tree could.
pub fn remove(tree: &mut Nbt, path: &Path) -> Changed
    ensures changes { IsChanged result (view tree.old) (view tree.new) (spec.remove (view tree.old) (parts path.now)) }
    ensures keeps { IsTree (view tree.old) → IsTree (view tree.new) }
{
    let (first, rest) = path.split();
    let old = mem::replace(tree, Nbt::Int(0));
    match settle(tree, remove_at(old, first, rest)) {
        Ok(changed) => changed,
        Err(_) => unreachable!(),
    }
}
