//! The files that a job reads first: its modules and its script.

ghost use Rattle.std.specs.Prelude.{◌≡◌, IfOk, option_map};
ghost use Rattle.app_words.specs.Script.{script_read};
ghost use Rattle.app_words.specs.WhereScript.{where_script_read};
ghost use Rattle.app_top.specs.Jobs.{module_of as module_path, said_of, script_of as script_path};
ghost use Rattle.app_top.specs.steps.JoinRun.{AreLibrariesRead, AreSourcesRead};
ghost use Rattle.app_top.specs.steps.Run.{AreInputsRead, AreLinesRead, IsInputRead, IsReadWithin};

use crate::refusal::Refusal;
use app_words::{Job, NamedFile, ScriptLine, script, script_where};
use io_dev::{Files, ReadAnswer};
use mc_nbt::{Bytes, Memory, Text};
use std::alloc::Global;
use wm_ast::Items;

/// The most bytes that a module or a script may have.
pub(crate) const FILE_CAP: u64 = 1_048_576;

/// The bytes of modules that are to be joined.
#[derive(Drop)]
pub struct Sources {
    /// Those of the libraries, in their order.
    pub libraries: Items<Bytes>,
    /// Those of the main module.
    pub main: Bytes,
}

/// The bytes of the files of a job that joins modules.
#[derive(Drop)]
pub struct JoinInputs {
    /// Those of its script.
    pub script: Bytes,
    /// Those of its modules.
    pub sources: Sources,
}

/// The bytes of the files of a job; none where it has no such file.
#[derive(Drop)]
pub struct Inputs {
    /// Those of its module.
    pub wasm: Bytes,
    /// Those of its script.
    pub script: Bytes,
}

/// A copy of the text.
pub(crate) fn copy_of(text: &Text) -> Result<Text, Memory>
    ensures { IfOk result (λ t. t ≡ text.now) }
{
    Ok(text.clone()?)
}

/// The bytes of the file at `path`, which are at most `cap`.
///
/// # Errors
///
/// - `CannotRead` where the read failed.
/// - `TooLong` where the file has more bytes.
/// - `Memory` where there was no memory.
pub(crate) fn read<F: Files>(files: &mut F, path: &Text, cap: u64) -> Result<Bytes, Refusal>
    ensures { IsReadWithin (F.state files.old) (F.state files.new) path.now cap result }
{
    // Copied first, so that a refused call is told without a need of memory.
    let told = copy_of(path)?;
    match files.read(path, cap) {
        Ok(bytes) => Ok(bytes),
        Err(ReadAnswer::Failed) => Err(Refusal::CannotRead(told)),
        Err(ReadAnswer::TooLong) => Err(Refusal::TooLong { path: told, cap }),
        Err(ReadAnswer::Memory) => Err(Refusal::Memory),
    }
}

// The bytes of the file at a path, and none where there is no path.
fn read_input<F: Files>(alloc: Global, files: &mut F, path: Option<&Text>) -> Result<Bytes, Refusal>
    ensures { IsInputRead (F.state files.old) (F.state files.new) (option_map (λ t. t.now) path.entry) result }
{
    match path {
        Some(path) => read(files, path, FILE_CAP),
        None => Ok(Bytes::new(alloc, &[])?),
    }
}

fn module_of(job: &Job) -> Option<&Text>
    ensures { option_map (λ t. t.now) result ≡ module_path job.now }
{
    match job {
        Job::Compile { file, .. } => Some(file),
        Job::Costs { file, .. } => Some(file),
        Job::Run { .. } => None,
        Job::Exec { file, .. } => Some(file),
        Job::Inspect { file, .. } => Some(file),
        Job::Gen { .. } | Job::Join { .. } | Job::Multi { .. } => None,
    }
}

fn script_of(job: &Job) -> Option<&Text>
    ensures { option_map (λ t. t.now) result ≡ script_path job.now }
{
    match job {
        Job::Compile { .. } => None,
        Job::Costs { .. } => None,
        Job::Run { script, .. } => Some(script),
        Job::Exec { script, .. } => Some(script),
        Job::Inspect { script, .. } => Some(script),
        Job::Gen { .. } | Job::Join { .. } | Job::Multi { .. } => None,
    }
}

/// Reads the module of a job, and then its script.
///
/// # Errors
///
/// - `CannotRead` where a read failed.
/// - `TooLong` where a file has more than 1,048,576 bytes.
/// - `Memory` where there was no memory.
pub fn read_inputs<F: Files>(alloc: Global, files: &mut F, job: &Job) -> Result<Inputs, Refusal>
    ensures { AreInputsRead job.now (F.state files.old) (F.state files.new) result }
{
    let wasm = read_input(alloc, files, module_of(job))?;
    let script = read_input(alloc, files, script_of(job))?;
    Ok(Inputs { wasm, script })
}

// The bytes of the libraries' files, in their order.
fn read_libraries<F: Files>(
    alloc: Global,
    files: &mut F,
    libraries: &[NamedFile],
) -> Result<Items<Bytes>, Refusal>
    ensures { AreLibrariesRead libraries.now (F.state files.old) (F.state files.new) result }
{
    let mut found = Items::new(alloc);
    for library in libraries {
        let bytes = read(files, &library.file, FILE_CAP)?;
        found.push(bytes)?;
    }
    Ok(found)
}

/// Reads the script of a job that joins modules, then the libraries in their order, and then the main module.
///
/// # Errors
///
/// As `read_inputs`.
pub fn read_sources<F: Files>(
    alloc: Global,
    files: &mut F,
    script: &Text,
    libraries: &[NamedFile],
    main: &Text,
) -> Result<JoinInputs, Refusal>
    ensures { AreSourcesRead script.now libraries.now main.now (F.state files.old) (F.state files.new) result }
{
    let script = read(files, script, FILE_CAP)?;
    let libraries = read_libraries(alloc, files, libraries)?;
    let main = read(files, main, FILE_CAP)?;
    Ok(JoinInputs {
        script,
        sources: Sources { libraries, main },
    })
}

/// The lines of a script.
///
/// # Errors
///
/// - `Script` exactly where a line is no script line, for the first of them.
/// - `Memory` where there was no memory.
pub fn read_lines(alloc: Global, bytes: &[u8]) -> Result<Vec<ScriptLine>, Refusal>
    ensures { AreLinesRead (script_read bytes.now) result }
{
    let lines = script(alloc, bytes)?;
    Ok(lines)
}

// The lines of a script that may ask where the program is.
fn read_asking_lines(alloc: Global, bytes: &[u8]) -> Result<Vec<ScriptLine>, Refusal>
    ensures { AreLinesRead (where_script_read bytes.now) result }
{
    let lines = script_where(alloc, bytes)?;
    Ok(lines)
}

/// The lines of a job's script, which may ask where the program is where the job is `inspect`.
///
/// # Errors
///
/// As `read_lines`.
pub fn read_lines_of(alloc: Global, job: &Job, bytes: &[u8]) -> Result<Vec<ScriptLine>, Refusal>
    ensures { AreLinesRead (said_of job.now bytes.now) result }
{
    match job {
        Job::Inspect { .. } => read_asking_lines(alloc, bytes),
        _ => read_lines(alloc, bytes),
    }
}
