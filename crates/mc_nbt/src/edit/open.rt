// A tree with what stands at a step of a path taken out, and the way back.
ghost use Rattle.std.specs.Prelude.{◌≡◌, ℕ, List, ◌<◌, ◌≤◌, map, length, slice_set, slice_get, IfSome, Some, None, MatchResult};
ghost use Rattle.std.specs.List.{insert as insert_item};
ghost use Rattle.mc_nbt.specs.Tree as spec;
ghost use Rattle.mc_nbt.specs.View.{view, entry, part, map_view, list_view};
ghost use Rattle.mc_nbt.specs.steps.Edit.{with_value, index_of_key as index_of_name, rank_of_key as rank_of_name, value_at, edit_map, edited, IsOpened, AddsField, AddsDone, field_put, item_put};

use crate::edit::Edited;
use crate::lookup::index_of;
use crate::tree::{compound, ints_of, list_of};
use crate::{Nbt, NbtList, NbtMap, PathPart, Text};
use std::mem;

// What stands below a step, taken out.
#[derive(Drop)]
pub(crate) enum Opened {
    // Nothing can be changed below.
    Leaf(Nbt),
    // A compound that lacks the key.
    Missing(Vec<(Text, Nbt)>),
    Field(Vec<(Text, Nbt)>, usize, Nbt),
    Item(Vec<Nbt>, usize, Nbt),
}

#[tactic(auto, using(crate::proofs::EditLemmas::skip_found))]
pub(crate) fn index_of_key(entries: &[(Text, Nbt)], name: &Text) -> Option<usize>
    ensures is { result ≡ index_of_name name.now (map entry entries.now) }
    ensures within { IfSome result (λ i. i < length entries.now) }
{
    for (i, entry) in entries.iter().enumerate() {
        if *name == entry.0 {
            return Some(i);
        }
    }
    None
}

fn rank_of_key(entries: &[(Text, Nbt)], name: &Text) -> usize
    ensures is { result ≡ rank_of_name name.now (map entry entries.now) }
    ensures within { result ≤ length entries.now }
{
    for (i, entry) in entries.iter().enumerate() {
        if *name < entry.0 {
            return i;
        }
    }
    entries.len()
}

#[tactic(auto, using(crate::proofs::EditLemmas::sets))]
fn take_item(items: &mut [Nbt], i: usize) -> Nbt
    requires { i < length items.old }
    ensures item { slice_get (map view items.old) i ≡ Some (view result) }
    ensures rest { (v : spec.Tree) → slice_set (map view items.new) i v ≡ slice_set (map view items.old) i v }
{
    mem::replace(&mut items[i], Nbt::Int(0))
}

#[tactic(auto, using(crate::proofs::EditLemmas::sets))]
fn put_item(items: &mut [Nbt], i: usize, v: Nbt)
    requires { i < length items.old }
    ensures { map view items.new ≡ slice_set (map view items.old) i (view v) }
{
    items[i] = v;
}

#[tactic(auto, using(crate::proofs::EditLemmas::values))]
fn take_value(entries: &mut [(Text, Nbt)], i: usize) -> Nbt
    requires { i < length entries.old }
    ensures rest { (v : spec.Tree) → with_value i v (map entry entries.new) ≡ with_value i v (map entry entries.old) }
    ensures item { value_at i (map entry entries.old) ≡ Some (view result) }
{
    mem::replace(&mut entries[i].1, Nbt::Int(0))
}

#[tactic(auto, using(crate::proofs::EditLemmas::values))]
fn put_value(entries: &mut [(Text, Nbt)], i: usize, v: Nbt)
    requires { i < length entries.old }
    ensures { map entry entries.new ≡ with_value i (view v) (map entry entries.old) }
{
    entries[i].1 = v;
}

fn lift_item(mut items: Vec<Nbt>, i: usize) -> (Vec<Nbt>, Nbt)
    requires { i < length items.items }
    ensures item { slice_get (map view items.items) i ≡ Some (view result.1) }
    ensures rest { (v : spec.Tree) → slice_set (map view result.0.items) i v ≡ slice_set (map view items.items) i v }
    ensures size { length result.0.items ≡ length items.items }
{
    let child = take_item(items.as_mut_slice(), i);
    (items, child)
}

fn lift_value(mut entries: Vec<(Text, Nbt)>, i: usize) -> (Vec<(Text, Nbt)>, Nbt)
    requires { i < length entries.items }
    ensures item { value_at i (map entry entries.items) ≡ Some (view result.1) }
    ensures rest { (v : spec.Tree) → with_value i v (map entry result.0.items) ≡ with_value i v (map entry entries.items) }
    ensures size { length result.0.items ≡ length entries.items }
{
    let child = take_value(entries.as_mut_slice(), i);
    (entries, child)
}

fn open_field(map: NbtMap, name: &Text) -> Opened
    ensures { IsOpened result (spec.compound (map_view map)) (spec.key name.now) }
{
    let NbtMap { entries } = map;
    match index_of_key(entries.as_slice(), name) {
        None => Opened::Missing(entries),
        Some(i) => {
            let (left, child) = lift_value(entries, i);
            Opened::Field(left, i, child)
        }
    }
}

fn open_item(items: Vec<Nbt>, place: i32) -> Opened
    ensures { IsOpened result (spec.list_of (map view items.items)) (spec.place place) }
{
    match index_of(items.len(), place) {
        None => Opened::Leaf(list_of(items)),
        Some(i) => {
            let (left, child) = lift_item(items, i);
            Opened::Item(left, i, child)
        }
    }
}

fn open_list(list: NbtList, step: &PathPart) -> Opened
    ensures { IsOpened result (spec.list (list_view list)) (part step.now) }
{
    match step {
        PathPart::Key(_) => Opened::Leaf(Nbt::List(list)),
        PathPart::Place(place) => match list {
            NbtList::Ints(items) => Opened::Leaf(ints_of(items)),
            NbtList::Trees(items) => open_item(items, *place),
        },
    }
}

// Takes out what stands at the step. An int of a list of ints can't be changed below, so such a list is a leaf.
pub(crate) fn open_part(tree: Nbt, step: &PathPart) -> Opened
    ensures { IsOpened result (view tree) (part step.now) }
{
    match tree {
        Nbt::Int(z) => Opened::Leaf(Nbt::Int(z)),
        Nbt::Str(s) => Opened::Leaf(Nbt::Str(s)),
        Nbt::List(list) => open_list(list, step),
        Nbt::Compound(map) => match step {
            PathPart::Key(name) => open_field(map, name),
            PathPart::Place(_) => Opened::Leaf(Nbt::Compound(map)),
        },
    }
}

fn put_entry(mut entries: Vec<(Text, Nbt)>, i: usize, v: Nbt) -> Vec<(Text, Nbt)>
    requires { i < length entries.items }
    ensures { map entry result.items ≡ with_value i (view v) (map entry entries.items) }
{
    put_value(entries.as_mut_slice(), i, v);
    entries
}

pub(crate) fn with_field(entries: Vec<(Text, Nbt)>, i: usize, v: Nbt) -> Nbt
    requires { i < length entries.items }
    ensures { view result ≡ field_put entries.items i (view v) }
{
    let entries = put_entry(entries, i, v);
    compound(entries)
}

pub(crate) fn with_item(mut items: Vec<Nbt>, i: usize, v: Nbt) -> Nbt
    requires { i < length items.items }
    ensures { view result ≡ item_put items.items i (view v) }
{
    put_item(items.as_mut_slice(), i, v);
    list_of(items)
}

pub(crate) fn close_field(entries: Vec<(Text, Nbt)>, i: usize, done: Edited) -> Edited
    requires { i < length entries.items }
    ensures { edited result ≡ edit_map (field_put entries.items i) (edited done) }
{
    match done {
        Edited::Made(t) => Edited::Made(with_field(entries, i, t)),
        Edited::Failed(t) => Edited::Failed(with_field(entries, i, t)),
        Edited::Short(t) => Edited::Short(with_field(entries, i, t)),
    }
}

pub(crate) fn close_item(items: Vec<Nbt>, i: usize, done: Edited) -> Edited
    requires { i < length items.items }
    ensures { edited result ≡ edit_map (item_put items.items i) (edited done) }
{
    match done {
        Edited::Made(t) => Edited::Made(with_item(items, i, t)),
        Edited::Failed(t) => Edited::Failed(with_item(items, i, t)),
        Edited::Short(t) => Edited::Short(with_item(items, i, t)),
    }
}

fn add_entry(
    mut entries: Vec<(Text, Nbt)>,
    at: usize,
    name: Text,
    v: Nbt,
) -> Result<Vec<(Text, Nbt)>, Vec<(Text, Nbt)>>
    requires { at ≤ length entries.items }
    ensures { MatchResult result (λ new. new.items ≡ insert_item entries.items at (name, v)) (λ old. old.items ≡ entries.items) }
{
    match entries.insert(at, (name, v)) {
        Ok(()) => Ok(entries),
        Err(refused) => {
            drop(refused);
            Err(entries)
        }
    }
}

// A new key at its place in the order, or the compound as it was.
pub(crate) fn add_field(entries: Vec<(Text, Nbt)>, name: &Text, v: Nbt) -> Edited
    requires { spec.find name.now (map entry entries.items) ≡ None }
    ensures { AddsField (edited result) (map entry entries.items) name.now (view v) }
{
    let at = rank_of_key(entries.as_slice(), name);
    match name.clone() {
        Ok(name) => match add_entry(entries, at, name, v) {
            Ok(entries) => Edited::Made(compound(entries)),
            Err(entries) => Edited::Short(compound(entries)),
        },
        Err(_) => Edited::Short(compound(entries)),
    }
}

// The compound with what was made for the key that it lacks.
pub(crate) fn add_done(entries: Vec<(Text, Nbt)>, step: &PathPart, done: Edited) -> Edited
    requires { (k : List ℕ) × (part step.now ≡ spec.key k) × (spec.find k (map entry entries.items) ≡ None) }
    ensures { AddsDone (edited result) (map entry entries.items) (part step.now) (edited done) }
{
    match done {
        Edited::Made(t) => match step {
            PathPart::Key(name) => add_field(entries, name, t),
            PathPart::Place(_) => unreachable!(),
        },
        Edited::Failed(t) => {
            drop(t);
            Edited::Failed(compound(entries))
        }
        Edited::Short(t) => {
            drop(t);
            Edited::Short(compound(entries))
        }
    }
}
