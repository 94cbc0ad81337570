// Where the program is.
ghost use Rattle.std.specs.Prelude.{◌≡◌, ℕ, IfOk, MatchOption};
ghost use Rattle.std.specs.Bool.{MatchBool};
ghost use Rattle.mc_world.specs.WorldView.{seen};
ghost use Rattle.wm_valid.specs.Height.{Low};
ghost use Rattle.wm_flat.specs.Program.{IsProgram};
ghost use Rattle.cc_entries.specs.Law.{NameTells};
ghost use Rattle.cc_line.specs.Key.{init_piece};
ghost use Rattle.cc_line.specs.Running.{NextPiece};
ghost use Rattle.cc_line.specs.View.{piece_view};
ghost use Rattle.cc_simulate.specs.Uses.{uses_bytes};
ghost use Rattle.mc_inspect.specs.Inspect.{IsAnswer, IsNowhere, IsRunning, IsSeen, number_of};

use crate::InspectFault;
use crate::look::look;
use crate::reading::{piece_at, read};
use cc_init::uses_bytes;
use cc_line::{Key, PieceId, Store};
use mc_nbt::{Memory, Nbt, Text};
use mc_world::World;
use pk_sight::{PackNames, runs, tree};
use std::alloc::Global;
use wm_valid::Typed;
use wm_view::Inspection;

// Whether the pack's state is that of a job that runs.
fn is_running(alloc: Global, w: &World, names: &PackNames) -> Result<bool, Memory>
    ensures { IfOk result (λ b. MatchBool b (IsRunning names.now.ns (seen w.now)) (IsRunning names.now.ns (seen w.now) → ⊥)) }
{
    match tree(alloc, w, names, Store::Io, Key::State)? {
        Some(Nbt::Int(z)) => Ok(*z == 1),
        _ => Ok(false),
    }
}

// A piece's number in its name.
fn number_of(piece: PieceId) -> u64
    ensures { result ≡ number_of (piece_view piece) }
{
    match piece {
        PieceId::Body { index, .. } | PieceId::Init { index } | PieceId::Shared { index } => {
            u64::from(index)
        }
        PieceId::End { results } => u64::from(results),
    }
}

// What is seen where this piece is next; none exactly where the world stands for no configuration.
fn seen_at(
    alloc: Global,
    m: &Typed,
    w: &World,
    names: &PackNames,
    bytes: bool,
    piece: PieceId,
) -> Result<Option<Inspection>, Memory>
    requires fit { IsProgram m.now × Low m.now }
    requires bytes { bytes ≡ uses_bytes m.now }
    requires told { NameTells (piece_view piece) }
    requires next { NextPiece (seen w.now) names.now.ns (piece_view piece) }
    ensures { IfOk result (λ o. MatchOption o (IsNowhere m.now names.now.ns (seen w.now))
        (λ v. IsSeen m.now names.now.ns (seen w.now) v)) }
{
    let Some(reading) = read(alloc, w, names)? else {
        return Ok(None);
    };
    if !runs(alloc, w, names, bytes)? {
        return Ok(None);
    }
    look(alloc, m, &reading, piece)
}

// Whether a piece is one of instantiation.
fn is_init(piece: PieceId) -> bool
    ensures { MatchBool result ((j : ℕ) × (piece_view piece ≡ init_piece j)) ((j : ℕ) → piece_view piece ≡ init_piece j → ⊥) }
{
    match piece {
        PieceId::Init { .. } => true,
        PieceId::Body { .. } | PieceId::Shared { .. } | PieceId::End { .. } => false,
    }
}

// The answer where the pack runs and this piece is next.
fn at_piece(
    alloc: Global,
    m: &Typed,
    w: &World,
    names: &PackNames,
    bytes: bool,
    piece: PieceId,
) -> Result<Inspection, InspectFault>
    requires fit { IsProgram m.now × Low m.now }
    requires bytes { bytes ≡ uses_bytes m.now }
    requires told { NameTells (piece_view piece) }
    requires next { NextPiece (seen w.now) names.now.ns (piece_view piece) }
    requires running { IsRunning names.now.ns (seen w.now) }
    ensures { IsAnswer m.now names.now.ns (seen w.now) result }
{
    if is_init(piece) {
        return Err(InspectFault::Starting);
    }
    match seen_at(alloc, m, w, names, bytes, piece)? {
        Some(shown) => Ok(shown),
        None => Err(InspectFault::NoPlace {
            piece: Some(number_of(piece)),
        }),
    }
}

/// What a world shows of a program that runs in it: what every configuration shows for which the world stands.
///
/// # Errors
///
/// The first of these that holds: `NotRunning`, where the pack's state isn't 1; `Starting`, where a piece of
/// instantiation is next; `NoPlace`, where the world stands for no configuration, with the number of the piece that is
/// next. `Memory` where there is no room for what is read or shown. Nothing is changed in any case.
pub fn inspect(alloc: Global, m: &Typed, w: &World, ns: &Text) -> Result<Inspection, InspectFault>
    ensures { IsAnswer m.now ns.now (seen w.now) result }
{
    let bytes = uses_bytes(m.module());
    let names = PackNames::new(alloc, ns)?;
    if !is_running(alloc, w, &names)? {
        return Err(InspectFault::NotRunning);
    }
    match piece_at(alloc, w, &names, Key::Next)? {
        Some(piece) => at_piece(alloc, m, w, &names, bytes, piece),
        None => Err(InspectFault::NoPlace { piece: None }),
    }
}
