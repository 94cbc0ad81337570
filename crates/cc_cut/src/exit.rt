// To which cuts the ways on from a place lead.
ghost use Rattle.std.specs.Prelude.{◌≡◌, ◌∷◌, ◌++◌, [], OnOk, IfOk, map};
ghost use Rattle.wm_ast.specs.View.{op_of};
ghost use Rattle.wm_place.specs.Stop.{level_told, visit_told};
ghost use Rattle.cc_cut.specs.Index.{landing_path};
ghost use Rattle.cc_cut.specs.Way.{path_behind, block_path};
ghost use Rattle.cc_cut.specs.steps.Exits.{branch_paths, branches_paths, leaving_paths, op_paths, visit_paths, indices_in};

use crate::begin::labelled;
use mc_nbt::Memory;
use std::alloc::Global;
use std::collections::HashMap;
use wm_ast::Instr;
use wm_place::{Level, Stop};

/// The indices of the cuts of a function, by the paths of their places.
pub(crate) type Indices = HashMap<Vec<u32>, u32>;

// Adds the index of the cut at a path, if there is one.
fn add_at(indices: &Indices, path: &[u32], exits: &mut Vec<u32>) -> Result<(), Memory>
    ensures { OnOk result (exits.new.items ≡ exits.old.items ++ indices_in indices.now (path.now ∷ [])) }
{
    if let Some(index) = indices.get(path) {
        exits.push(*index)?;
    }
    Ok(())
}

// Adds that of the cut inside the instruction of this path, to which these numbers lead on.
fn add_inside(
    alloc: Global,
    indices: &Indices,
    path: &[u32],
    added: &[u32],
    exits: &mut Vec<u32>,
) -> Result<(), Memory>
    ensures { OnOk result (exits.new.items ≡ exits.old.items ++ indices_in indices.now ((path.now ++ added.now) ∷ [])) }
{
    let mut to = Vec::from_slice(alloc, path)?;
    to.extend_from_slice(added)?;
    add_at(indices, to.as_slice(), exits)
}

// The path of the next place of a sequence. A position is below the number of instructions, so the next one has room.
pub(crate) fn path_behind(alloc: Global, path: &[u32]) -> Result<Vec<u32>, Memory>
    ensures { IfOk result (λ to. to.items ≡ path_behind path.now) }
{
    let mut to = Vec::from_slice(alloc, path)?;
    if let Some(position) = to.pop() {
        let next = position.checked_add(1).ok_or(Memory)?;
        to.push(next)?;
    }
    Ok(to)
}

// Adds that of the cut behind the instruction of this path.
fn add_behind(
    alloc: Global,
    indices: &Indices,
    path: &[u32],
    exits: &mut Vec<u32>,
) -> Result<(), Memory>
    ensures { OnOk result (exits.new.items ≡ exits.old.items ++ indices_in indices.now (path_behind path.now ∷ [])) }
{
    let to = path_behind(alloc, path)?;
    add_at(indices, to.as_slice(), exits)
}

/// The path of a block round the place of this path.
pub fn block_path<'a>(path: &'a [u32], level: &Level<'_>) -> &'a [u32]
    ensures { result.now ≡ block_path path.now (level_told level.now) }
{
    if level.lead < path.len() {
        let (front, _) = path.split_at(level.lead + 1);
        front
    } else {
        path
    }
}

// Adds that of the cut to which a branch to the label of a block leads.
fn add_landing(
    alloc: Global,
    indices: &Indices,
    block: &Instr,
    path: &[u32],
    exits: &mut Vec<u32>,
) -> Result<(), Memory>
    ensures { OnOk result (exits.new.items ≡ exits.old.items ++ indices_in indices.now (landing_path (op_of block.now) path.now ∷ [])) }
{
    match block {
        Instr::Loop { .. } => add_inside(alloc, indices, path, &[0], exits),
        _ => add_behind(alloc, indices, path, exits),
    }
}

// Adds that of the cut to which a branch to a label leads, unless it is the body's own.
fn add_branch(
    alloc: Global,
    indices: &Indices,
    path: &[u32],
    levels: &[Level<'_>],
    label: u32,
    exits: &mut Vec<u32>,
) -> Result<(), Memory>
    ensures { OnOk result (exits.new.items ≡ exits.old.items ++ indices_in indices.now (branch_paths path.now (map level_told levels.now) label)) }
{
    match labelled(levels, label) {
        Some(level) => add_landing(alloc, indices, level.block, block_path(path, level), exits),
        None => Ok(()),
    }
}

// Adds those of the cuts to which branches to these labels lead.
fn add_branches(
    alloc: Global,
    indices: &Indices,
    path: &[u32],
    levels: &[Level<'_>],
    labels: &[u32],
    exits: &mut Vec<u32>,
) -> Result<(), Memory>
    ensures { OnOk result (exits.new.items ≡ exits.old.items ++ indices_in indices.now (branches_paths path.now (map level_told levels.now) labels.now)) }
{
    for label in labels {
        add_branch(alloc, indices, path, levels, *label, exits)?;
    }
    Ok(())
}

// Adds that of the cut behind the innermost block.
fn add_leaving(
    alloc: Global,
    indices: &Indices,
    path: &[u32],
    levels: &[Level<'_>],
    exits: &mut Vec<u32>,
) -> Result<(), Memory>
    ensures { OnOk result (exits.new.items ≡ exits.old.items ++ indices_in indices.now (leaving_paths path.now (map level_told levels.now))) }
{
    match labelled(levels, 0) {
        Some(level) => add_behind(alloc, indices, block_path(path, level), exits),
        None => Ok(()),
    }
}

// Adds those of the cuts to which an instruction leads.
fn add_of_instr(
    alloc: Global,
    indices: &Indices,
    instr: &Instr,
    path: &[u32],
    levels: &[Level<'_>],
    exits: &mut Vec<u32>,
) -> Result<(), Memory>
    ensures { OnOk result (exits.new.items ≡ exits.old.items ++ indices_in indices.now (op_paths (op_of instr.now) path.now (map level_told levels.now))) }
{
    match instr {
        Instr::Block { .. } | Instr::Loop { .. } => {
            add_inside(alloc, indices, path, &[0], exits)
        }
        Instr::If { .. } => {
            add_inside(alloc, indices, path, &[0, 0], exits)?;
            add_inside(alloc, indices, path, &[1, 0], exits)
        }
        Instr::Br(label) => add_branch(alloc, indices, path, levels, *label, exits),
        Instr::BrIf(label) => {
            add_branch(alloc, indices, path, levels, *label, exits)?;
            add_behind(alloc, indices, path, exits)
        }
        Instr::BrTable { labels, last } => {
            add_branches(alloc, indices, path, levels, labels.as_slice(), exits)?;
            add_branch(alloc, indices, path, levels, *last, exits)
        }
        Instr::Return | Instr::Unreachable => Ok(()),
        _ => add_behind(alloc, indices, path, exits),
    }
}

/// Adds the indices of the cuts to which the ways on from a place lead.
///
/// # Errors
///
/// `Memory` where there is no room for a path or an exit.
pub(crate) fn add_exits(
    alloc: Global,
    indices: &Indices,
    stop: Stop<'_>,
    exits: &mut Vec<u32>,
) -> Result<(), Memory>
    ensures { OnOk result (exits.new.items ≡ exits.old.items ++ indices_in indices.now (visit_paths (visit_told stop.entry))) }
{
    match stop.rest.first() {
        Some(instr) => add_of_instr(alloc, indices, instr, stop.path, stop.levels, exits),
        None => add_leaving(alloc, indices, stop.path, stop.levels, exits),
    }
}
