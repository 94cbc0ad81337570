// The pieces of a pack, each with what it is a piece of and what it weighs.

ghost use Rattle.std.specs.Prelude.{◌≡◌, ◌++◌, IfOk, OnOk, is_some, option_to_list, true};
ghost use Rattle.mc_cmd.specs.Form.{cut_at};
ghost use Rattle.mc_cmd.specs.Layout as layout;
ghost use Rattle.mc_cmd.specs.Packing.{lines_at, pack_view};
ghost use Rattle.app_words.specs.Script.{address};
ghost use Rattle.app_report.specs.Costs as spec;
ghost use Rattle.app_report.specs.Costs.{ArePiecesLight};
ghost use Rattle.app_report.specs.steps.Weighing.{AreKnown};

use crate::weighing::{Known, weigh};
use app_words::read_u32;
use mc_cmd::{PIECE, Pack, cut};
use mc_nbt::{Memory, Text};
use std::alloc::Global;

/// What a piece is one of.
#[derive(Clone, Copy)]
pub(crate) enum Group {
    /// The pieces of the function of this index.
    Function(u32),
    /// Those of instantiation.
    Instantiation,
    /// Those that are shared.
    Shared,
}

/// A piece: what it is one of, and its static weight.
#[derive(Clone, Copy)]
pub(crate) struct Piece {
    pub group: Group,
    pub weight: u32,
}

pub(crate) fn same_group(a: Group, b: Group) -> bool
    ensures { result ≡ spec.same_group a b }
{
    match (a, b) {
        (Group::Function(i), Group::Function(j)) => i == j,
        (Group::Instantiation, Group::Instantiation) => true,
        (Group::Shared, Group::Shared) => true,
        _ => false,
    }
}

// The group, where a number follows.
fn numbered(group: Group, number: &[u8]) -> Option<Group>
    ensures { result ≡ spec.numbered group (address.read number.now) }
{
    match read_u32(number) {
        Some(_) => Some(group),
        None => None,
    }
}

// `I_J`, behind the `f` of a piece's name.
fn function_group(numbers: &[u8]) -> Option<Group>
    ensures { result ≡ spec.function_group (cut_at 95 numbers.now) }
{
    let (function, piece) = cut(numbers, b'_')?;
    let function = read_u32(function)?;
    numbered(Group::Function(function), piece)
}

// What a function of this name is a piece of, if it is one.
fn group_of(name: &[u8]) -> Option<Group>
    ensures { result ≡ spec.group_of name.now }
{
    match name {
        [b'f', rest @ ..] => function_group(rest),
        [b'i', rest @ ..] => numbered(Group::Instantiation, rest),
        [b's', rest @ ..] => numbered(Group::Shared, rest),
        [..] => None,
    }
}

// Pieces of functions from `funcs` on aren't told.
fn is_told(group: Group, funcs: u32) -> bool
    ensures { result ≡ spec.is_told funcs group }
{
    match group {
        Group::Function(function) => function < funcs,
        Group::Instantiation | Group::Shared => true,
    }
}

fn told_group(name: &[u8], funcs: u32) -> Option<Group>
    ensures { result ≡ spec.told_group funcs (spec.group_of name.now) }
{
    match group_of(name) {
        Some(group) if is_told(group, funcs) => Some(group),
        _ => None,
    }
}

// The piece of this name, where it is one that is told.
fn piece_of(
    alloc: Global,
    pack: &Pack,
    name: &str,
    funcs: u32,
    known: &mut Known,
) -> Result<Option<Piece>, Memory>
    requires light { ArePiecesLight pack.now }
    requires known { AreKnown (pack_view pack.now).functions known.old }
    requires stands { is_some (lines_at pack.now name.now) ≡ true }
    ensures piece { IfOk result (λ o. o ≡ spec.piece_in pack.now funcs name.now) }
    ensures known { OnOk result (AreKnown (pack_view pack.now).functions known.new) }
{
    let Some(group) = told_group(name.as_bytes(), funcs) else {
        return Ok(None);
    };
    let full = full_name(alloc, &pack.index().ns, name)?;
    let weight = weigh(alloc, pack, &full, PIECE, known)?;
    Ok(Some(Piece { group, weight }))
}

fn full_name(alloc: Global, ns: &Text, name: &str) -> Result<Text, Memory>
    ensures { IfOk result (λ t. t ≡ layout.full_name ns.now name.now) }
{
    Ok(Text::from(format!(in alloc; "{ns}:{name}")?))
}

fn push_piece(pieces: &mut Vec<Piece>, piece: Option<Piece>) -> Result<(), Memory>
    ensures { OnOk result (pieces.new.items ≡ pieces.old.items ++ option_to_list piece) }
{
    if let Some(piece) = piece {
        pieces.push(piece)?;
    }
    Ok(())
}

/// The pieces of a pack, but for those of functions from `funcs` on, in the order of the pack.
pub(crate) fn pieces_of(alloc: Global, pack: &Pack, funcs: u32) -> Result<Vec<Piece>, Memory>
    requires { ArePiecesLight pack.now }
    ensures { IfOk result (λ v. v.items ≡ spec.told_pieces pack.now funcs) }
{
    let mut known = Known::new(alloc);
    let mut pieces = Vec::new(alloc);
    for at in 0..pack.functions() {
        let piece = piece_of(alloc, pack, pack.name(at), funcs, &mut known)?;
        push_piece(&mut pieces, piece)?;
    }
    Ok(pieces)
}
