//! One run of the program over what a row gives it.

use crate::row::{Piece, Plan, Row};
use crate::swapped::SwappedFiles;
use app_top::{Status, top};
use io_dev::{Fails, MemFiles, MemSink};
use mc_nbt::{Memory, Text};
use std::alloc::Global;

/// How a run ended, and what it left.
#[derive(Drop)]
pub struct End {
    pub status: Status,
    pub files: SwappedFiles,
    pub out: MemSink,
    pub err: MemSink,
}

fn fails_of(alloc: Global, plan: &Plan) -> Result<Fails, Memory> {
    let mut fails = Fails::new(alloc);
    for fail in plan.as_slice() {
        fails.push(*fail)?;
    }
    Ok(fails)
}

/// Puts these bytes behind those of the file at the path.
fn append(alloc: Global, files: &mut MemFiles, piece: &Piece) -> Result<(), Memory> {
    let Some(before) = files.bytes(&piece.path) else {
        return files.put(&piece.path, &piece.bytes);
    };
    let mut whole = before.to_vec(alloc)?;
    whole.extend_from_slice(&piece.bytes)?;
    files.put(&piece.path, &whole)
}

fn files_of(alloc: Global, pieces: &[Piece], plan: &Plan) -> Result<MemFiles, Memory> {
    let mut files = MemFiles::new(alloc, fails_of(alloc, plan)?)?;
    for piece in pieces {
        append(alloc, &mut files, piece)?;
    }
    Ok(files)
}

/// Leaves of the file at the path the first `length` bytes.
fn shorten(alloc: Global, files: &mut MemFiles, path: &Text, length: usize) -> Result<(), Memory> {
    let Some(bytes) = files.bytes(path) else {
        return Ok(());
    };
    let kept = bytes[..length.min(bytes.len())].to_vec(alloc)?;
    files.put(path, &kept)
}

fn run(alloc: Global, row: &Row, files: MemFiles) -> Result<End, Memory> {
    let no_plan = Vec::new(alloc);
    let swaps = files_of(alloc, &row.swaps, &no_plan)?;
    let mut files = SwappedFiles::new(alloc, files, swaps);
    let mut out = MemSink::new(alloc, fails_of(alloc, &row.out_plan)?)?;
    let mut err = MemSink::new(alloc, fails_of(alloc, &row.err_plan)?)?;
    let status = top(alloc, &row.words, &mut files, &mut out, &mut err);
    Ok(End {
        status,
        files,
        out,
        err,
    })
}

/// The run of a row.
pub fn run_whole(alloc: Global, row: &Row) -> Result<End, Memory> {
    let files = files_of(alloc, &row.files, &row.files_plan)?;
    run(alloc, row, files)
}

/// The run of a row where the file at `path` has only its first `length` bytes.
pub fn run_cut(alloc: Global, row: &Row, path: &Text, length: usize) -> Result<End, Memory> {
    let mut files = files_of(alloc, &row.files, &row.files_plan)?;
    shorten(alloc, &mut files, path, length)?;
    run(alloc, row, files)
}
