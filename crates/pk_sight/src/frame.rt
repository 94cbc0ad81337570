// The places of the innermost frame: the first ones are scores, the further ones stand in a list.
ghost use Rattle.std.specs.Prelude.{◌≡◌, ◌∷◌, [], List, ℤ, Some, IfOk, MatchOption};
ghost use Rattle.std.specs.Bool.{MatchBool};
ghost use Rattle.mc_nbt.specs.Tree as trees;
ghost use Rattle.mc_cmd.specs.World.{tree_in};
ghost use Rattle.mc_world.specs.WorldView.{seen};
ghost use Rattle.cc_line.specs.Key.{key_frame};
ghost use Rattle.cc_line.specs.Place.{place_name};
ghost use Rattle.cc_line.specs.Running.{kept_at};
ghost use Rattle.cc_line.specs.State.{frame_tree};
ghost use Rattle.pk_sight.specs.Shown.{HasPlaces, ShowsNone};
ghost use Rattle.pk_sight.specs.steps.Parts.{AreFirstPlaces, HasStores, IsKeyed, LacksPlace, LacksStore};

use crate::PackNames;
use crate::frame_list::listed_places;
use crate::reading::tree;
use cc_line::{Key, SCORE_PLACES, Store};
use mc_nbt::{Memory, Nbt, Text};
use mc_world::World;
use std::alloc::Global;

/// The places of the innermost frame: those of each state that the world shows; `None` exactly where it shows none.
///
/// # Errors
///
/// `Memory` where there is no room for them.
pub fn places(alloc: Global, world: &World, names: &PackNames) -> Result<Option<Vec<i32>>, Memory>
    ensures { IfOk result (λ o. MatchOption o (ShowsNone names.now.ns (seen world.now))
        (λ zs. HasPlaces names.now.ns (seen world.now) zs.items)) }
{
    if !has_stores(world, names) {
        return Ok(None);
    }
    let Some(mut places) = first_places(alloc, world, names)? else {
        return Ok(None);
    };
    let Some(mut further) = further_places(alloc, world, names)? else {
        return Ok(None);
    };
    places.append(&mut further)?;
    Ok(Some(places))
}

// Whether each of the three storages has keys.
fn has_stores(world: &World, names: &PackNames) -> bool
    ensures { MatchBool result (HasStores names.now.ns (seen world.now)) (LacksStore names.now.ns (seen world.now)) }
{
    if !is_keyed(world, &names.io) {
        return false;
    }
    if !is_keyed(world, &names.memory) {
        return false;
    }
    is_keyed(world, &names.rest)
}

// Whether a storage is a compound, as one is that no command made.
fn is_keyed(world: &World, id: &Text) -> bool
    ensures { MatchBool result (IsKeyed (tree_in (seen world.now) id.now)) (IsKeyed (tree_in (seen world.now) id.now) → ⊥) }
{
    match world.storage(id) {
        Some(tree) => matches!(tree, Nbt::Compound(_)),
        None => true,
    }
}

// The places that are scores; `None` exactly where one of them isn't set.
fn first_places(alloc: Global, world: &World, names: &PackNames) -> Result<Option<Vec<i32>>, Memory>
    ensures { IfOk result (λ o. MatchOption o (LacksPlace names.now.ns (seen world.now))
        (λ zs. AreFirstPlaces names.now.ns (seen world.now) zs.items)) }
{
    let mut places = Vec::new(alloc);
    for place in 0..SCORE_PLACES {
        let holder = place_holder(alloc, place)?;
        match world.score(&holder, &names.ns) {
            Some(z) => places.push(z)?,
            None => return Ok(None),
        }
    }
    Ok(Some(places))
}

fn place_holder(alloc: Global, place: u32) -> Result<Text, Memory>
    ensures { IfOk result (λ t. t ≡ place_name place) }
{
    Ok(Text::from(format!(in alloc; "#{place}")?))
}

// The places that stand in the list of the frame's tree; `None` exactly where no frame's tree stands.
fn further_places(
    alloc: Global,
    world: &World,
    names: &PackNames,
) -> Result<Option<Vec<i32>>, Memory>
    ensures { IfOk result (λ o. MatchOption o
        ((zs : List ℤ) → kept_at (seen world.now) names.now.ns (trees.key key_frame ∷ []) ≡ Some (frame_tree zs) → ⊥)
        (λ zs. kept_at (seen world.now) names.now.ns (trees.key key_frame ∷ []) ≡ Some (frame_tree zs.items))) }
{
    match tree(alloc, world, names, Store::Rest, Key::Frame)? {
        Some(frame) => listed_places(alloc, frame),
        None => Ok(None),
    }
}
