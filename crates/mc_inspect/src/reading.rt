// What is read of a world before it is asked for what it stands.
ghost use Rattle.std.specs.Prelude.{IfOk, MatchOption, option_map};
ghost use Rattle.mc_world.specs.WorldView.{seen};
ghost use Rattle.cc_line.specs.State.{State};
ghost use Rattle.cc_line.specs.View.{key_text};
ghost use Rattle.pk_sight.specs.Shown.{IsStateOf, ShowsNone};
ghost use Rattle.mc_inspect.specs.steps.Read.{HasArgs, HasEntries, HasScores, IsRead, NamesAt};

use cc_line::{Key, PieceId, Scratch, Store};
use mc_nbt::Memory;
use mc_world::World;
use pk_entries::{Entry, entries_of, piece_of};
use pk_sight::{PackNames, ints_in, places, score, tree};
use std::alloc::Global;

/// Scratch scores, by the letters of their holders.
#[derive(Clone, Copy)]
pub(crate) struct Scores {
    pub(crate) d: Option<i32>,
    pub(crate) e: Option<i32>,
    pub(crate) g: Option<i32>,
    pub(crate) k: Option<i32>,
    pub(crate) m: Option<i32>,
    pub(crate) n: Option<i32>,
    pub(crate) p: Option<i32>,
    pub(crate) q: Option<i32>,
    pub(crate) r: Option<i32>,
    pub(crate) s: Option<i32>,
    pub(crate) u: Option<i32>,
    pub(crate) v: Option<i32>,
}

/// What was read of a world: the places of the innermost frame, the piece that follows, the frames below, the arguments
/// that are handed in, each of these where there is such a thing, and scores.
#[derive(Drop)]
pub(crate) struct Reading {
    pub(crate) places: Vec<i32>,
    pub(crate) follows: Option<PieceId>,
    pub(crate) entries: Option<Vec<Entry>>,
    pub(crate) args: Option<Vec<i32>>,
    pub(crate) scores: Scores,
}

// The scores.
fn scores_of(alloc: Global, world: &World, names: &PackNames) -> Result<Scores, Memory>
    ensures { IfOk result (λ x. (p : State) → IsStateOf names.now.ns (seen world.now) p → HasScores x p) }
{
    Ok(Scores {
        d: score(alloc, world, names, Scratch::D)?,
        e: score(alloc, world, names, Scratch::E)?,
        g: score(alloc, world, names, Scratch::G)?,
        k: score(alloc, world, names, Scratch::K)?,
        m: score(alloc, world, names, Scratch::M)?,
        n: score(alloc, world, names, Scratch::N)?,
        p: score(alloc, world, names, Scratch::P)?,
        q: score(alloc, world, names, Scratch::Q)?,
        r: score(alloc, world, names, Scratch::R)?,
        s: score(alloc, world, names, Scratch::S)?,
        u: score(alloc, world, names, Scratch::U)?,
        v: score(alloc, world, names, Scratch::V)?,
    })
}

/// The piece whose name stands under a key of the pack's own storage; none exactly where none does.
pub(crate) fn piece_at(
    alloc: Global,
    world: &World,
    names: &PackNames,
    key: Key,
) -> Result<Option<PieceId>, Memory>
    ensures { IfOk result (NamesAt (seen world.now) names.now.ns (key_text key)) }
{
    match tree(alloc, world, names, Store::Rest, key)? {
        Some(name) => piece_of(alloc, name),
        None => Ok(None),
    }
}

// The frames below.
fn entries(alloc: Global, world: &World, names: &PackNames) -> Result<Option<Vec<Entry>>, Memory>
    ensures { IfOk result (λ o. (p : State) → IsStateOf names.now.ns (seen world.now) p
        → HasEntries (option_map (λ v. v.items) o) p) }
{
    match tree(alloc, world, names, Store::Rest, Key::Below)? {
        Some(below) => entries_of(alloc, below),
        None => Ok(None),
    }
}

// The arguments.
fn args(alloc: Global, world: &World, names: &PackNames) -> Result<Option<Vec<i32>>, Memory>
    ensures { IfOk result (λ o. (p : State) → IsStateOf names.now.ns (seen world.now) p
        → HasArgs (option_map (λ v. v.items) o) p) }
{
    match tree(alloc, world, names, Store::Rest, Key::Args)? {
        Some(given) => ints_in(alloc, given),
        None => Ok(None),
    }
}

/// What each state has that the world shows; none exactly where it shows none.
pub(crate) fn read(
    alloc: Global,
    world: &World,
    names: &PackNames,
) -> Result<Option<Reading>, Memory>
    ensures { IfOk result (λ o. MatchOption o (ShowsNone names.now.ns (seen world.now))
        (λ x. IsRead names.now.ns (seen world.now) x)) }
{
    let Some(places) = places(alloc, world, names)? else {
        return Ok(None);
    };
    let follows = piece_at(alloc, world, names, Key::Follows)?;
    let entries = entries(alloc, world, names)?;
    let args = args(alloc, world, names)?;
    let scores = scores_of(alloc, world, names)?;
    Ok(Some(Reading {
        places,
        follows,
        entries,
        args,
        scores,
    }))
}
