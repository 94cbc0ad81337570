// The commands of storages.
ghost use Rattle.std.specs.Prelude.{◌≡◌, IfOk, OnErr, false, if◌then◌else◌, is_some, option_and_then, option_map, true};
ghost use Rattle.mc_nbt.specs.Shape.{IsTree};
ghost use Rattle.mc_nbt.specs.Tree.{select};
ghost use Rattle.mc_nbt.specs.View.{parts, sel, view};
ghost use Rattle.mc_cmd.specs.Command as spec;
ghost use Rattle.mc_cmd.specs.World as world;
ghost use Rattle.mc_cmd.specs.World.{effect, fails, leaves, stored, tree_in};
ghost use Rattle.mc_world.specs.WorldView.{seen, told};
ghost use Rattle.mc_world.specs.steps.Changing.{IsFit, changed, is_made, put_so};
ghost use Rattle.mc_world.specs.steps.Trees.{is_stored};

use crate::count::number_of;
use crate::outcome::{done, failed, given};
use crate::tree_change::{TreeChange, Way, change_tree, empty_compound};
use crate::{Outcome, World};
use mc_nbt::{Changed, Memory, Nbt, Path, Sel, Text, get};

fn answer(made: Changed) -> Outcome
    ensures { (w : world.World) → told result w ≡ (if is_made made then leaves w else fails w) }
{
    match made {
        Changed::Yes => done(),
        Changed::No => failed(),
    }
}

// The tree or the number as a tree of its own.
fn copy(selected: Sel<'_>) -> Result<Nbt, Memory>
    ensures { IfOk result (λ t. view t ≡ sel selected.entry) }
{
    match selected {
        Sel::Int(z) => Ok(Nbt::Int(z)),
        Sel::Tree(tree) => Ok(tree.clone()?),
    }
}

impl World {
    /// What a path selects in a storage; `None` exactly where it selects nothing. A storage that no command made is the
    /// empty compound.
    pub fn selected(&self, id: &Text, path: &Path) -> Option<Sel<'_>>
        ensures { option_map sel result ≡ select (tree_in (seen self.now) id.now) (parts path.now) }
    {
        match self.storage(id) {
            Some(tree) => get(tree, path),
            None => {
                let _parts = path.parts();
                None
            }
        }
    }

    // A copy of what a path selects in a storage.
    fn copied(&self, id: &Text, path: &Path) -> Result<Option<Nbt>, Memory>
        ensures copies { IfOk result (λ o. option_map view o ≡ select (tree_in (seen self.now) id.now) (parts path.now)) }
        ensures trees { IfOk result (λ o. is_stored (option_map view o) ≡ true) }
    {
        match self.selected(id, path) {
            Some(selected) => Ok(Some(copy(selected)?)),
            None => Ok(None),
        }
    }

    fn change_there(
        &mut self,
        id: &Text,
        path: &Path,
        change: TreeChange,
    ) -> Result<Outcome, Memory>
        requires stands { is_some ((seen self.old).storages id.now) ≡ true }
        requires fits { IsFit change }
        ensures effect { IfOk result (λ o. told o (seen self.new) ≡ stored (seen self.old) id.now (changed change (tree_in (seen self.old) id.now) (parts path.now))) }
        ensures unchanged { OnErr result (seen self.new ≡ seen self.old) }
    {
        let alloc = self.alloc;
        match self.storages.get_mut(id.as_str()) {
            Some(tree) => Ok(answer(change_tree(alloc, tree, path, change)?)),
            None => unreachable!(),
        }
    }

    fn change_new(&mut self, id: &Text, path: &Path, change: TreeChange) -> Result<Outcome, Memory>
        requires missing { is_some ((seen self.old).storages id.now) ≡ false }
        requires fits { IsFit change }
        ensures effect { IfOk result (λ o. told o (seen self.new) ≡ stored (seen self.old) id.now (changed change (tree_in (seen self.old) id.now) (parts path.now))) }
        ensures unchanged { OnErr result (seen self.new ≡ seen self.old) }
    {
        let mut tree = empty_compound(self.alloc);
        match change_tree(self.alloc, &mut tree, path, change)? {
            Changed::Yes => {
                let name = String::from_str(self.alloc, id.as_str())?;
                self.storages.insert(name, tree)?;
                Ok(done())
            }
            Changed::No => Ok(failed()),
        }
    }

    fn change(&mut self, id: &Text, path: &Path, change: TreeChange) -> Result<Outcome, Memory>
        requires { IsFit change }
        ensures effect { IfOk result (λ o. told o (seen self.new) ≡ stored (seen self.old) id.now (changed change (tree_in (seen self.old) id.now) (parts path.now))) }
        ensures unchanged { OnErr result (seen self.new ≡ seen self.old) }
    {
        if self.storage(id).is_some() {
            self.change_there(id, path, change)
        } else {
            self.change_new(id, path, change)
        }
    }

    pub(super) fn data_get(&self, id: &Text, path: &Path) -> Outcome
        ensures { told result (seen self.now) ≡ effect (spec.data_get id.now (parts path.now)) (seen self.now) }
    {
        match self.selected(id, path) {
            Some(selected) => given(number_of(selected)),
            None => failed(),
        }
    }

    // `set value` and `append value`.
    pub(super) fn put_value(
        &mut self,
        way: Way,
        id: &Text,
        path: &Path,
        value: &Nbt,
    ) -> Result<Outcome, Memory>
        requires { IsTree (view value.now) }
        ensures effect { IfOk result (λ o. told o (seen self.new) ≡ stored (seen self.old) id.now (put_so way (tree_in (seen self.old) id.now) (parts path.now) (view value.now))) }
        ensures unchanged { OnErr result (seen self.new ≡ seen self.old) }
    {
        let value = value.clone()?;
        self.change(id, path, TreeChange::Put(way, value))
    }

    // `set from storage` and `append from storage`.
    pub(super) fn put_from(
        &mut self,
        way: Way,
        id: &Text,
        path: &Path,
        from_id: &Text,
        from_path: &Path,
    ) -> Result<Outcome, Memory>
        ensures effect { IfOk result (λ o. told o (seen self.new) ≡ stored (seen self.old) id.now (option_and_then (put_so way (tree_in (seen self.old) id.now) (parts path.now)) (select (tree_in (seen self.old) from_id.now) (parts from_path.now)))) }
        ensures unchanged { OnErr result (seen self.new ≡ seen self.old) }
    {
        match self.copied(from_id, from_path)? {
            Some(value) => self.change(id, path, TreeChange::Put(way, value)),
            None => Ok(failed()),
        }
    }

    pub(super) fn data_remove(&mut self, id: &Text, path: &Path) -> Result<Outcome, Memory>
        ensures effect { IfOk result (λ o. told o (seen self.new) ≡ effect (spec.data_remove id.now (parts path.now)) (seen self.old)) }
        ensures unchanged { OnErr result (seen self.new ≡ seen self.old) }
    {
        self.change(id, path, TreeChange::Remove)
    }
}
