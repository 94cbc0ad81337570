//! Workloads that are written, compiled and played.

ghost use Rattle.std.specs.Prelude.{◌≤◌, length};
ghost use Rattle.app_workload.specs.Reduced.{HasMain};
ghost use Rattle.app_top.specs.Outside.{outside};
ghost use Rattle.app_top.specs.Workload.{IsWorkloadAnswered};
ghost use Rattle.app_top.specs.steps.WorkloadRun.{IsFolderTold, IsMade, IsPutAt};

use crate::inputs::copy_of;
use crate::linking::taken;
use crate::program::say;
use crate::refusal::Refusal;
use app_workload::workload_lines;
use io_dev::{Files, Sink, WriteAnswer};
use mc_nbt::{Bytes, Text};
use pk_files::{read_pack, write_pack};
use pk_link::link;
use std::alloc::Global;
use wm_gen::{MAX_SIZE, generate};
use wm_valid::Typed;

/// The namespace of a workload's pack.
const NAMESPACE: &str = "gen";

/// A workload.
#[derive(Drop)]
pub(crate) struct Made {
    /// Its bytes.
    pub(crate) wasm: Bytes,
    /// Its module.
    pub(crate) typed: Typed,
}

// The workload of a number and a size.
fn make(alloc: Global, number: u64, size: u32) -> Result<Made, Refusal>
    requires least { 1 ≤ size }
    requires most { size ≤ MAX_SIZE }
    ensures { IsMade number size result }
{
    let wasm = generate(alloc, number, size)?;
    let typed = taken(alloc, wasm.as_slice())?;
    Ok(Made { wasm, typed })
}

// Puts the bytes at the path.
fn put_file<F: Files>(files: &mut F, path: &Text, bytes: &[u8]) -> Result<(), Refusal>
    ensures { IsPutAt (F.state files.old) (F.state files.new) path.now bytes.now result }
{
    // Copied first, so that a refused call is told without a need of memory.
    let told = copy_of(path)?;
    match files.write(path, bytes) {
        Ok(()) => Ok(()),
        Err(WriteAnswer::Failed) => Err(Refusal::CannotWrite(told)),
        Err(WriteAnswer::Memory) => Err(Refusal::Memory),
    }
}

// Reads the pack that the folder says, and tells the workload of which it is played.
fn tell_workload<F: Files, O: Sink>(
    alloc: Global,
    files: &mut F,
    out: &mut O,
    dir: &Text,
    made: &Made,
) -> Result<(), Refusal>
    requires { HasMain made.now.typed }
    ensures { IsFolderTold
        (outside (F.state files.old) (O.state out.old))
        (outside (F.state files.new) (O.state out.new))
        dir.now (length made.now.wasm) made.now.typed result }
{
    let pack = read_pack(alloc, files, dir)?;
    let lines = workload_lines(alloc, made.wasm.len(), &made.typed, pack)?;
    say(out, &lines)
}

/// Puts the workload of a number and a size into `file`, and its pack into the empty folder `dir`; reads the pack back,
/// and tells what it and the module give.
///
/// # Errors
///
/// The first cause for which not all was done: `CannotWrite` for `file`, and behind it those of a pack that is written
/// and read back, and `Output`. `Memory` may come at any point.
pub fn make_workload<F: Files, O: Sink>(
    alloc: Global,
    files: &mut F,
    out: &mut O,
    number: u64,
    size: u32,
    file: &Text,
    dir: &Text,
) -> Result<(), Refusal>
    requires least { 1 ≤ size }
    requires most { size ≤ MAX_SIZE }
    ensures { IsWorkloadAnswered number size file.now dir.now
        (outside (F.state files.old) (O.state out.old))
        (outside (F.state files.new) (O.state out.new))
        result }
{
    let made = make(alloc, number, size)?;
    let ns = Text::new(alloc, NAMESPACE)?;
    let pack = link(alloc, &made.typed, &ns)?;
    put_file(files, file, made.wasm.as_slice())?;
    write_pack(alloc, files, dir, &pack)?;
    drop(pack);
    tell_workload(alloc, files, out, dir, &made)
}
