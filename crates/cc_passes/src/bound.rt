// How many places whoever comes behind items may read.
ghost use Rattle.std.specs.Prelude.{◌≡◌, None, Some, if◌then◌else◌, nat_eq};
ghost use Rattle.cc_line.specs.Key.{id_tree};
ghost use Rattle.cc_line.specs.View.{act_view, item_view, items_view, key_text, leaf_tree, open_act_view, open_step_view};
ghost use Rattle.cc_line.specs.View.{open_steps_view, piece_view, site_view, step_view, store_view};
ghost use Rattle.cc_passes.specs.Bound.{act_bound, ends_bound, exit_bound, greater, height_at, height_named};
ghost use Rattle.cc_passes.specs.Bound.{item_bound, items_bound, names_next, next_behind, open_act_bound};
ghost use Rattle.cc_passes.specs.Bound.{open_step_bound, open_steps_bound, or_all, set_bound, step_bound, stops_bound};
ghost use Rattle.cc_passes.specs.Bound.{written_bound};

use cc_line::{
    Act, Below, Item, Key, Leaf, OpenAct, OpenStep, PieceId, SCORE_PLACES, Site, Step, Store,
};
use cc_names::is_next;

// The first numbers in the names of pieces of routines and of instantiation.
const GROUP_SHARED: u32 = 100_000;

const GROUP_INIT: u32 = 100_001;

// The greater of two bounds; none where one is missing.
fn greater(one: Option<u32>, other: Option<u32>) -> Option<u32>
    ensures { result ≡ greater one other }
{
    let (Some(one), Some(other)) = (one, other) else {
        return None;
    };
    Some(one.max(other))
}

// The height of the cut of this index.
fn height_at(heights: &[u32], index: u32) -> Option<u32>
    ensures { result ≡ height_at heights.now index }
{
    let position = index.checked_sub(1)?;
    heights.get(position as usize).copied()
}

// The height of the cut of this function with this index, where the name of a piece has these two numbers.
fn numbered_height(func: u32, heights: &[u32], named: u32, index: u32) -> Option<u32>
    ensures { result ≡ (if nat_eq named func then height_at heights.now index else None) }
{
    if named == func {
        height_at(heights, index)
    } else {
        None
    }
}

// The height of the cut of this function that the name of a piece tells.
#[tactic(auto, using(crate::proofs::LeafLemmas::piece_named))]
fn piece_height(func: u32, heights: &[u32], piece: PieceId) -> Option<u32>
    ensures { result ≡ height_named func heights.now (id_tree (piece_view piece)) }
{
    match piece {
        PieceId::Body { func: named, index } => numbered_height(func, heights, named, index),
        PieceId::Init { index } => numbered_height(func, heights, GROUP_INIT, index),
        PieceId::Shared { index } => numbered_height(func, heights, GROUP_SHARED, index),
        PieceId::End { .. } => None,
    }
}

// That which a leaf tells.
#[tactic(auto, using(crate::proofs::LeafLemmas::leaf_named))]
fn height_named(func: u32, heights: &[u32], leaf: Leaf) -> Option<u32>
    ensures { result ≡ height_named func heights.now (leaf_tree leaf) }
{
    match leaf {
        Leaf::Piece(piece) => piece_height(func, heights, piece),
        _ => None,
    }
}

// Under a key something is written.
fn written_bound(store: Store, key: Key) -> Option<u32>
    ensures { result ≡ written_bound (store_view store) (key_text key) }
{
    if is_next(store, key) { None } else { Some(0) }
}

// A path gets a tree.
fn set_bound(func: u32, heights: &[u32], site: Site, leaf: Leaf) -> Option<u32>
    ensures { result ≡ set_bound func heights.now (site_view site) (leaf_tree leaf) }
{
    if !is_next(site.store, site.key) {
        return Some(0);
    }
    match site.below {
        Below::Nothing => height_named(func, heights, leaf),
        _ => None,
    }
}

fn act_bound(func: u32, heights: &[u32], act: Act) -> Option<u32>
    ensures { result ≡ act_bound func heights.now (act_view act) }
{
    match act {
        Act::SetSite { site, leaf } => set_bound(func, heights, site, leaf),
        Act::KeepSite { site, .. }
        | Act::PlaceToSite { site, .. }
        | Act::CopySite { to: site, .. }
        | Act::AppendLeaf { site, .. }
        | Act::AppendSite { to: site, .. }
        | Act::EraseSite { site }
        | Act::SaveList { site } => written_bound(site.store, site.key),
        _ => Some(0),
    }
}

fn step_bound(func: u32, heights: &[u32], step: Step) -> Option<u32>
    ensures { result ≡ step_bound func heights.now (step_view step) }
{
    match step {
        Step::Run(act) | Step::When(_, act) => act_bound(func, heights, act),
        Step::StopWhen(_) => Some(0),
    }
}

fn open_act_bound(act: OpenAct) -> Option<u32>
    ensures { result ≡ open_act_bound (open_act_view act) }
{
    match act {
        OpenAct::KeepSite { site, .. }
        | OpenAct::PlaceToSite { site, .. }
        | OpenAct::SetSite { site, .. }
        | OpenAct::CopySite { to: site, .. } => written_bound(site.store, site.key),
        _ => Some(0),
    }
}

fn open_step_bound(func: u32, heights: &[u32], step: OpenStep) -> Option<u32>
    ensures { result ≡ open_step_bound func heights.now (open_step_view step) }
{
    match step {
        OpenStep::Closed(step) => step_bound(func, heights, step),
        OpenStep::Run(act) | OpenStep::When(_, act) => open_act_bound(act),
    }
}

// The greatest height of the cuts that lines name which a compound fills.
fn open_steps_bound(func: u32, heights: &[u32], steps: &[OpenStep]) -> Option<u32>
    ensures { result ≡ open_steps_bound func heights.now (open_steps_view steps.now) }
{
    let mut bound = Some(0);
    for step in steps {
        bound = greater(bound, open_step_bound(func, heights, *step));
    }
    bound
}

// The greatest height of the cuts that items name, and their helpers; none where the next piece may be another one.
#[cycle(bound)]
fn items_bound(func: u32, heights: &[u32], items: &[Item]) -> Option<u32>
    ensures { result ≡ items_bound func heights.now (items_view items.now) }
{
    let mut bound = Some(0);
    for item in items {
        bound = greater(bound, item_bound(func, heights, item));
    }
    bound
}

#[cycle(bound)]
fn item_bound(func: u32, heights: &[u32], item: &Item) -> Option<u32>
    ensures { result ≡ item_bound func heights.now (item_view item.now) }
{
    match item {
        Item::Step(step) => step_bound(func, heights, *step),
        Item::Call { items, .. } => items_bound(func, heights, items.as_slice()),
        Item::Fill { steps, .. } | Item::LookUp { steps, .. } => {
            open_steps_bound(func, heights, steps.as_slice())
        }
        // The table is under a key of its own.
        Item::Table(_) => Some(0),
    }
}

// Whether an item surely writes what the next piece is.
fn names_next(item: &Item) -> bool
    ensures { result ≡ names_next (item_view item.now) }
{
    match item {
        Item::Step(Step::Run(Act::SetSite { site, .. })) => is_next(site.store, site.key),
        _ => false,
    }
}

// How many places the next piece may read behind an item, by how many it may read before.
fn next_behind(func: u32, heights: &[u32], now: Option<u32>, item: &Item) -> Option<u32>
    ensures { result ≡ next_behind func heights.now now (item_view item.now) }
{
    let named = item_bound(func, heights, item);
    if names_next(item) {
        named
    } else {
        greater(now, named)
    }
}

// At a way out it may read as many as before.
fn exit_bound(now: Option<u32>, item: &Item) -> Option<u32>
    ensures { result ≡ exit_bound now (item_view item.now) }
{
    match item {
        Item::Step(Step::StopWhen(_)) => now,
        _ => Some(0),
    }
}

// Where the next piece may be any, it may read all places that are scores.
fn or_all(bound: Option<u32>) -> u32
    ensures { result ≡ or_all bound }
{
    match bound {
        Some(bound) => bound,
        None => SCORE_PLACES,
    }
}

/// How many places whoever comes behind a piece may read: behind a way out in the middle, and behind the end.
#[derive(Clone, Copy, Debug)]
pub(crate) struct Bounds {
    pub stops: u32,
    pub ends: u32,
}

/// How many these are behind a piece at whose own cut so many places are read, or any where it is that of no cut.
pub(crate) fn piece_bounds(func: u32, heights: &[u32], own: Option<u32>, items: &[Item]) -> Bounds
    ensures stops { result.stops ≡ or_all (stops_bound func heights.now own (items_view items.now)) }
    ensures ends { result.ends ≡ or_all (ends_bound func heights.now own (items_view items.now)) }
{
    let mut stops = Some(0);
    let mut now = own;
    for item in items {
        stops = greater(stops, exit_bound(now, item));
        now = next_behind(func, heights, now, item);
    }
    Bounds {
        stops: or_all(stops),
        ends: or_all(now),
    }
}
