// Whether a pack runs as its states say.
ghost use Rattle.std.specs.Prelude.{◌≡◌, ◌↔◌, IfOk, IsTrue, Some, false};
ghost use Rattle.mc_nbt.specs.View.{view};
ghost use Rattle.mc_world.specs.WorldView.{seen};
ghost use Rattle.cc_line.specs.Sight.{in_rest};
ghost use Rattle.cc_line.specs.State.{State, is_frame};
ghost use Rattle.cc_line.specs.Table.{table_tree};
ghost use Rattle.cc_line.specs.View.{key_text, scratch_text, store_view};
ghost use Rattle.cc_simulate.specs.Stands.{Running};
ghost use Rattle.pk_sight.specs.Shown.{IsStateOf};
ghost use Rattle.pk_sight.specs.steps.Parts.{HasByteTables, HasConstants, HasTables, IsUnderWay};

use crate::PackNames;
use crate::reading::{score, tree};
use crate::tables::is_table;
use cc_line::{Key, Scratch, Store, Table};
use mc_nbt::{Memory, Nbt, is_same};
use mc_world::World;
use std::alloc::Global;

/// Whether each state that the world shows runs: the job's state is 1, no trap is recorded, the state in which the job
/// ends is told, and the constants and the tables of routines stand, those of bytes only where they are asked for.
///
/// # Errors
///
/// `Memory` where there is no room for the names of scores and keys.
pub fn runs(alloc: Global, world: &World, names: &PackNames, bytes: bool) -> Result<bool, Memory>
    ensures { IfOk result (λ b. (p : State) → IsStateOf names.now.ns (seen world.now) p → IsTrue b ↔ Running bytes p) }
{
    if !is_under_way(alloc, world, names)? {
        return Ok(false);
    }
    if !has_constants(alloc, world, names)? {
        return Ok(false);
    }
    if !has_tables(alloc, world, names)? {
        return Ok(false);
    }
    if bytes {
        has_byte_tables(alloc, world, names)
    } else {
        Ok(true)
    }
}

fn is_under_way(alloc: Global, world: &World, names: &PackNames) -> Result<bool, Memory>
    ensures { IfOk result (λ b. (p : State) → IsStateOf names.now.ns (seen world.now) p → IsTrue b ↔ IsUnderWay p) }
{
    if !has_score(alloc, world, names, Scratch::Trap, 0)? {
        return Ok(false);
    }
    if !has_tree(alloc, world, names, Store::Io, Key::State, &Nbt::Int(1))? {
        return Ok(false);
    }
    let end = tree(alloc, world, names, Store::Rest, Key::End)?;
    Ok(end.is_some())
}

fn has_constants(alloc: Global, world: &World, names: &PackNames) -> Result<bool, Memory>
    ensures { IfOk result (λ b. (p : State) → IsStateOf names.now.ns (seen world.now) p → IsTrue b ↔ HasConstants p) }
{
    if !has_score(alloc, world, names, Scratch::Two, 2)? {
        return Ok(false);
    }
    if !has_score(alloc, world, names, Scratch::ThirtyTwo, 32)? {
        return Ok(false);
    }
    if !has_score(alloc, world, names, Scratch::HalfWord, 65_536)? {
        return Ok(false);
    }
    has_score(alloc, world, names, Scratch::Least, i32::MIN)
}

fn has_tables(alloc: Global, world: &World, names: &PackNames) -> Result<bool, Memory>
    ensures { IfOk result (λ b. (p : State) → IsStateOf names.now.ns (seen world.now) p → IsTrue b ↔ HasTables p) }
{
    if !has_table(alloc, world, names, Key::ShiftLeft, Table::ShiftLeft)? {
        return Ok(false);
    }
    if !has_table(
        alloc,
        world,
        names,
        Key::ShiftRightSigned,
        Table::ShiftRightSigned,
    )? {
        return Ok(false);
    }
    if !has_table(alloc, world, names, Key::ShiftRight, Table::ShiftRight)? {
        return Ok(false);
    }
    if !has_table(alloc, world, names, Key::RotateLeft, Table::RotateLeft)? {
        return Ok(false);
    }
    has_table(alloc, world, names, Key::RotateRight, Table::RotateRight)
}

fn has_byte_tables(alloc: Global, world: &World, names: &PackNames) -> Result<bool, Memory>
    ensures { IfOk result (λ b. (p : State) → IsStateOf names.now.ns (seen world.now) p → IsTrue b ↔ HasByteTables p) }
{
    if !has_table(alloc, world, names, Key::LowByte, Table::LowByte)? {
        return Ok(false);
    }
    if !has_table(alloc, world, names, Key::HighByte, Table::HighByte)? {
        return Ok(false);
    }
    if !has_table(alloc, world, names, Key::ByteAnd, Table::ByteAnd)? {
        return Ok(false);
    }
    has_table(alloc, world, names, Key::RaisedAnd, Table::RaisedAnd)
}

// Whether a score has a number.
fn has_score(
    alloc: Global,
    world: &World,
    names: &PackNames,
    which: Scratch,
    number: i32,
) -> Result<bool, Memory>
    ensures { IfOk result (λ b. (p : State) → IsStateOf names.now.ns (seen world.now) p
        → IsTrue b ↔ (p.scores (scratch_text which) ≡ Some number)) }
{
    match score(alloc, world, names, which)? {
        Some(found) => Ok(found == number),
        None => Ok(false),
    }
}

// Whether a table stands under a key.
fn has_table(
    alloc: Global,
    world: &World,
    names: &PackNames,
    key: Key,
    table: Table,
) -> Result<bool, Memory>
    requires { is_frame in_rest (key_text key) ≡ false }
    ensures { IfOk result (λ b. (p : State) → IsStateOf names.now.ns (seen world.now) p
        → IsTrue b ↔ (p.keys in_rest (key_text key) ≡ Some (table_tree table))) }
{
    match tree(alloc, world, names, Store::Rest, key)? {
        Some(found) => Ok(is_table(found, table)),
        None => Ok(false),
    }
}

// Whether a tree stands under a key that isn't the frame's.
fn has_tree(
    alloc: Global,
    world: &World,
    names: &PackNames,
    store: Store,
    key: Key,
    wanted: &Nbt,
) -> Result<bool, Memory>
    requires { is_frame (store_view store) (key_text key) ≡ false }
    ensures { IfOk result (λ b. (p : State) → IsStateOf names.now.ns (seen world.now) p
        → IsTrue b ↔ (p.keys (store_view store) (key_text key) ≡ Some (view wanted.now))) }
{
    match tree(alloc, world, names, store, key)? {
        Some(found) => Ok(is_same(found, wanted)),
        None => Ok(false),
    }
}
