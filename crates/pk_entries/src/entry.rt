// Frames below, from their entries.
ghost use Rattle.std.specs.Prelude.{◌≡◌, IfOk, List, MatchOption, map, take};
ghost use Rattle.mc_nbt.specs.Tree as spec;
ghost use Rattle.mc_nbt.specs.Tree.{tree_same};
ghost use Rattle.mc_nbt.specs.View.{list_view, view};
ghost use Rattle.cc_line.specs.Place.{score_places};
ghost use Rattle.cc_line.specs.Running.{Kept, entry_tree};
ghost use Rattle.cc_line.specs.View.{piece_view};
ghost use Rattle.cc_entries.specs.Law.{AllTell, NameTells};
ghost use Rattle.pk_entries.specs.Told.{KeepsFrame, KeepsFrames};
ghost use Rattle.pk_entries.specs.View.{entry_view};

use crate::build::entry_nbt;
use crate::lookup::{find, int_under, number_under, push_under};
use crate::name::piece_of;
use cc_line::{PieceId, SCORE_PLACES};
use mc_nbt::{Memory, Nbt, NbtList, is_same};
use std::alloc::Global;

/// A frame below: its places, and the piece that follows the call that it waits for.
#[derive(Drop)]
pub struct Entry {
    pub places: Vec<i32>,
    pub follows: PieceId,
}

// The first places, which stand under their numbers.
fn first_places(alloc: Global, tree: &Nbt) -> Result<Vec<i32>, Memory>
    ensures { IfOk result (λ v. (b : Kept) → view tree.now ≡ entry_tree b → v.items ≡ take score_places b.places) }
{
    let saved = number_under(tree, "z").min(SCORE_PLACES);
    let mut places = Vec::new(alloc);
    for place in 0..saved {
        let key = place.to_string(alloc)?;
        places.push(int_under(tree, key.as_str()))?;
    }
    Ok(places)
}

// All places; the further ones stand in a list.
fn places_of(alloc: Global, tree: &Nbt) -> Result<Vec<i32>, Memory>
    ensures { IfOk result (λ v. (b : Kept) → view tree.now ≡ entry_tree b → v.items ≡ b.places) }
{
    let mut places = first_places(alloc, tree)?;
    push_under(tree, "f", &mut places)?;
    Ok(places)
}

// The piece that follows.
fn follows_of(alloc: Global, tree: &Nbt) -> Result<Option<PieceId>, Memory>
    ensures { IfOk result (λ o. MatchOption o ((b : Kept) → KeepsFrame (view tree.now) b → ⊥)
        (λ i. NameTells (piece_view i)
        × ((b : Kept) → KeepsFrame (view tree.now) b → piece_view i ≡ b.follows))) }
{
    match find(tree, "p") {
        Some(name) => {
            let piece = piece_of(alloc, name)?;
            Ok(piece)
        }
        None => Ok(None),
    }
}

// The only frame that the tree may keep.
fn candidate(alloc: Global, tree: &Nbt) -> Result<Option<Entry>, Memory>
    ensures { IfOk result (λ o. MatchOption o ((b : Kept) → KeepsFrame (view tree.now) b → ⊥)
        (λ e. NameTells (piece_view e.follows)
        × ((b : Kept) → KeepsFrame (view tree.now) b → entry_view e ≡ b))) }
{
    match follows_of(alloc, tree)? {
        Some(follows) => {
            let places = places_of(alloc, tree)?;
            Ok(Some(Entry { places, follows }))
        }
        None => Ok(None),
    }
}

// Whether the tree is the entry of this frame.
fn is_entry(alloc: Global, tree: &Nbt, entry: &Entry) -> Result<bool, Memory>
    ensures { IfOk result (λ b. b ≡ tree_same (view tree.now) (entry_tree (entry_view entry.now))) }
{
    let made = entry_nbt(alloc, entry)?;
    Ok(is_same(tree, &made))
}

// The frame that the tree keeps.
fn entry_of(alloc: Global, tree: &Nbt) -> Result<Option<Entry>, Memory>
    ensures { IfOk result (λ o. MatchOption o ((b : Kept) → KeepsFrame (view tree.now) b → ⊥)
        (λ e. KeepsFrame (view tree.now) (entry_view e))) }
{
    match candidate(alloc, tree)? {
        Some(entry) => {
            let same = is_entry(alloc, tree, &entry)?;
            if same {
                return Ok(Some(entry));
            }
            Ok(None)
        }
        None => Ok(None),
    }
}

// The frames that the trees keep, one each.
fn entries_in(alloc: Global, trees: &[Nbt]) -> Result<Option<Vec<Entry>>, Memory>
    ensures { IfOk result (λ o. MatchOption o
        ((bs : List Kept) → AllTell bs → map view trees.now ≡ map entry_tree bs → ⊥)
        (λ es. AllTell (map entry_view es.items) × (map view trees.now ≡ map entry_tree (map entry_view es.items)))) }
{
    let mut entries = Vec::new(alloc);
    for tree in trees {
        match entry_of(alloc, tree)? {
            Some(entry) => entries.push(entry)?,
            None => return Ok(None),
        }
    }
    Ok(Some(entries))
}

// The elements of a tree that is a list.
fn list_of(tree: &Nbt) -> Option<&NbtList>
    ensures { MatchOption result ((ts : spec.Items) → view tree.now ≡ spec.list ts → ⊥)
        (λ l. view tree.now ≡ spec.list (list_view l.now)) }
{
    match tree {
        Nbt::List(list) => Some(list),
        Nbt::Int(_) => None,
        Nbt::Str(_) => None,
        Nbt::Compound(_) => None,
    }
}

// The frames that they keep; ints keep none.
fn frames_of(alloc: Global, list: &NbtList) -> Result<Option<Vec<Entry>>, Memory>
    ensures { IfOk result (λ o. MatchOption o ((bs : List Kept) → KeepsFrames (spec.list (list_view list.now)) bs → ⊥)
        (λ es. KeepsFrames (spec.list (list_view list.now)) (map entry_view es.items))) }
{
    match list {
        NbtList::Trees(trees) => {
            let entries = entries_in(alloc, trees.as_slice())?;
            Ok(entries)
        }
        NbtList::Ints(ints) => {
            if ints.is_empty() {
                return Ok(Some(Vec::new(alloc)));
            }
            Ok(None)
        }
    }
}

/// The frames below that have the tree, the outermost first; `None` exactly where no frames have it. Those that are
/// followed by a piece of a function with a number of 100,000 or more are left out.
///
/// # Errors
///
/// `Memory` where there is no room for them, or for a tree to compare.
pub fn entries_of(alloc: Global, tree: &Nbt) -> Result<Option<Vec<Entry>>, Memory>
    ensures { IfOk result (λ o. MatchOption o ((bs : List Kept) → KeepsFrames (view tree.now) bs → ⊥)
        (λ es. KeepsFrames (view tree.now) (map entry_view es.items))) }
{
    match list_of(tree) {
        Some(list) => {
            let entries = frames_of(alloc, list)?;
            Ok(entries)
        }
        None => Ok(None),
    }
}
