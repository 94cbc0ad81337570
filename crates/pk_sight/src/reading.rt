// Scores and keys.
ghost use Rattle.std.specs.Prelude.{◌≡◌, ◌∷◌, [], IfOk, false, option_map};
ghost use Rattle.mc_nbt.specs.Tree as trees;
ghost use Rattle.mc_nbt.specs.View.{view};
ghost use Rattle.mc_cmd.specs.World.{tree_in};
ghost use Rattle.mc_world.specs.WorldView.{seen};
ghost use Rattle.cc_line.specs.Sight.{store_id};
ghost use Rattle.cc_line.specs.State.{State, is_frame};
ghost use Rattle.cc_line.specs.View.{key_text, scratch_text, store_view};
ghost use Rattle.pk_sight.specs.Shown.{IsStateOf};

use crate::PackNames;
use cc_line::{Key, Scratch, Store};
use mc_nbt::{Memory, Nbt, Text};
use mc_world::World;
use std::alloc::Global;

/// The score of a holder that is no place, if it is set: that of the world, and of each state that the world shows.
///
/// # Errors
///
/// `Memory` where there is no room for the holder's name.
pub fn score(
    alloc: Global,
    world: &World,
    names: &PackNames,
    which: Scratch,
) -> Result<Option<i32>, Memory>
    ensures of_world { IfOk result (λ o. o ≡ (seen world.now).scores (scratch_text which) names.now.ns) }
    ensures of_states { IfOk result (λ o. (p : State) → IsStateOf names.now.ns (seen world.now) p
        → o ≡ p.scores (scratch_text which)) }
{
    let holder = Text::new(alloc, which.holder())?;
    Ok(world.score(&holder, &names.ns))
}

/// What stands under a key of a storage of the pack, if anything does: in the world, and, but for the frame's key, in
/// each state that the world shows.
///
/// # Errors
///
/// `Memory` where there is no room for the key's text.
pub fn tree<'a>(
    alloc: Global,
    world: &'a World,
    names: &PackNames,
    store: Store,
    key: Key,
) -> Result<Option<&'a Nbt>, Memory>
    ensures of_world { IfOk result (λ o. option_map (λ t. view t.now) o
        ≡ trees.select (tree_in (seen world.now) (store_id names.now.ns (store_view store))) (trees.key (key_text key) ∷ [])) }
    ensures of_states { IfOk result (λ o. (p : State) → IsStateOf names.now.ns (seen world.now) p
        → is_frame (store_view store) (key_text key) ≡ false
        → option_map (λ t. view t.now) o ≡ p.keys (store_view store) (key_text key)) }
{
    let name = Text::new(alloc, key.text())?;
    Ok(kept_under(world, names.storage(store), &name))
}

// What stands under a key of a storage. One that no command made has no key.
fn kept_under<'a>(world: &'a World, id: &Text, name: &Text) -> Option<&'a Nbt>
    ensures { option_map (λ t. view t.now) result ≡ trees.child (tree_in (seen world.now) id.now) (trees.key name.now) }
{
    match world.storage(id) {
        Some(tree) => field(tree, name),
        None => None,
    }
}

fn field<'a>(tree: &'a Nbt, name: &Text) -> Option<&'a Nbt>
    ensures { option_map (λ t. view t.now) result ≡ trees.child (view tree.now) (trees.key name.now) }
{
    match tree {
        Nbt::Compound(fields) => fields.get(name),
        Nbt::Int(_) | Nbt::Str(_) | Nbt::List(_) => None,
    }
}
