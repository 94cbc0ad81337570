//! The whole program: from words to a status.

ghost use Rattle.std.specs.Prelude.{◌≡◌, ◌≤◌, [], Err, IfOk, length, map, true};
ghost use Rattle.io_dev.specs.Names.{IsListingOf};
ghost use Rattle.mc_cmd.specs.Packing as packs;
ghost use Rattle.app_words.specs.View.{line_view};
ghost use Rattle.app_words.specs.Words.{job_fits};
ghost use Rattle.app_report.specs.Costs.{ArePiecesLight, costs_text};
ghost use Rattle.app_top.specs.Complete.{IsDoneOrMemory, IsInOrder};
ghost use Rattle.app_top.specs.Outside.{outside};
ghost use Rattle.app_top.specs.Refusal.{line_of};
ghost use Rattle.app_top.specs.declared.refusal.Refusal.TheVariants as refusals;
ghost use Rattle.app_top.specs.steps.Run.{IsFolderPlayed, IsJobDone, IsPackPlayed, is_plain};
ghost use Rattle.app_top.specs.steps.Run.{IsModuleCompiled, IsModuleCosted, IsModuleExecuted};
ghost use Rattle.app_top.specs.Jobs.{IsSaid, files_line};
ghost use Rattle.app_top.specs.Top.{Ends, IsAnsweredJob, IsPartlyTold, IsRun, Tells};

use crate::inputs::{read_inputs, read_lines_of};
use crate::inspecting::inspect_module;
use crate::joining::join_modules;
use crate::linking::taken;
use crate::refusal::{Refusal, Status};
use crate::sharing::share_world;
use crate::workload::make_workload;
use app_play::play;
use app_report::costs;
use app_words::{Job, ScriptLine, words};
use io_dev::{Files, Sink, WriteAnswer};
use mc_cmd::Pack;
use mc_nbt::{Memory, Text};
use pk_files::{put_pack, read_pack, see_empty};
use pk_link::link;
use std::alloc::Global;
use wm_ast::Module;

// The line that tells how many files a pack has.
fn count_line(alloc: Global, pack: &Pack) -> Result<Text, Memory>
    ensures { IfOk result (λ t. t ≡ files_line pack.now) }
{
    let files = pack.functions() as u128 + 4;
    Ok(Text::from(format!(in alloc; "files {files}\n")?))
}

/// Writes a text to the output.
///
/// # Errors
///
/// - `Output` where the output failed.
/// - `Memory` where there was no memory.
pub(crate) fn say<O: Sink>(out: &mut O, text: &Text) -> Result<(), Refusal>
    ensures { IsSaid text.now (O.state out.old) (O.state out.new) result }
{
    match out.write(text.as_bytes()) {
        Ok(()) => Ok(()),
        Err(WriteAnswer::Failed) => Err(Refusal::Output),
        Err(WriteAnswer::Memory) => Err(Refusal::Memory),
    }
}

fn tell_count<O: Sink>(alloc: Global, out: &mut O, pack: &Pack) -> Result<(), Refusal>
    ensures { IsSaid (files_line pack.now) (O.state out.old) (O.state out.new) result }
{
    let line = count_line(alloc, pack)?;
    say(out, &line)
}

// Tells what the pieces of a pack for the module weigh.
fn tell_costs<O: Sink>(alloc: Global, out: &mut O, pack: &Pack, m: &Module) -> Result<(), Refusal>
    requires few { length m.now.funcs ≤ 8192 }
    requires light { ArePiecesLight pack.now }
    ensures { IsSaid (costs_text pack.now (length m.now.funcs)) (O.state out.old) (O.state out.new) result }
{
    let lines = costs(alloc, pack, m.funcs.len() as u32)?;
    say(out, &lines)
}

// Reads the pack that the folder says, and plays the lines of a script over it.
fn play_folder<F: Files, O: Sink>(
    alloc: Global,
    files: &mut F,
    out: &mut O,
    dir: &Text,
    lines: &[ScriptLine],
) -> Result<(), Refusal>
    ensures { IsFolderPlayed
        (outside (F.state files.old) (O.state out.old))
        (outside (F.state files.new) (O.state out.new))
        dir.now (map line_view lines.now) result }
{
    let pack = read_pack(alloc, files, dir)?;
    play(alloc, out, pack, lines)?;
    Ok(())
}

// Writes the pack of the module into the folder, and tells how many files it has.
fn compile<F: Files, O: Sink>(
    alloc: Global,
    files: &mut F,
    out: &mut O,
    wasm: &[u8],
    dir: &Text,
    ns: &Text,
) -> Result<(), Refusal>
    requires { packs.is_pack_namespace ns.now ≡ true }
    ensures { IsModuleCompiled
        (outside (F.state files.old) (O.state out.old))
        (outside (F.state files.new) (O.state out.new))
        wasm.now dir.now ns.now result }
{
    let typed = taken(alloc, wasm)?;
    see_empty(files, dir)?;
    let pack = link(alloc, &typed, ns)?;
    put_pack(alloc, files, dir, &pack)?;
    tell_count(alloc, out, &pack)
}

// Writes the pack of the module into the folder, and tells what its pieces weigh.
fn compile_with_costs<F: Files, O: Sink>(
    alloc: Global,
    files: &mut F,
    out: &mut O,
    wasm: &[u8],
    dir: &Text,
    ns: &Text,
) -> Result<(), Refusal>
    requires { packs.is_pack_namespace ns.now ≡ true }
    ensures { IsModuleCosted
        (outside (F.state files.old) (O.state out.old))
        (outside (F.state files.new) (O.state out.new))
        wasm.now dir.now ns.now result }
{
    let typed = taken(alloc, wasm)?;
    see_empty(files, dir)?;
    let pack = link(alloc, &typed, ns)?;
    put_pack(alloc, files, dir, &pack)?;
    tell_costs(alloc, out, &pack, typed.module())
}

/// Writes the pack into the folder, which is empty, reads it back, and plays the lines of the script over it.
///
/// # Errors
///
/// The first cause for which not all of this was done.
pub(crate) fn play_pack<F: Files, O: Sink>(
    alloc: Global,
    files: &mut F,
    out: &mut O,
    dir: &Text,
    pack: &Pack,
    lines: &[ScriptLine],
) -> Result<(), Refusal>
    requires { IsListingOf (F.state files.now).content dir.now [] }
    ensures { IsPackPlayed
        (outside (F.state files.old) (O.state out.old))
        (outside (F.state files.new) (O.state out.new))
        dir.now pack.now (map line_view lines.now) result }
{
    put_pack(alloc, files, dir, pack)?;
    play_folder(alloc, files, out, dir, lines)
}

// Writes the pack of the module into the folder, reads it back, and plays the lines of the script over it.
fn execute<F: Files, O: Sink>(
    alloc: Global,
    files: &mut F,
    out: &mut O,
    wasm: &[u8],
    dir: &Text,
    ns: &Text,
    lines: &[ScriptLine],
) -> Result<(), Refusal>
    requires { packs.is_pack_namespace ns.now ≡ true }
    ensures { IsModuleExecuted
        (outside (F.state files.old) (O.state out.old))
        (outside (F.state files.new) (O.state out.new))
        wasm.now dir.now ns.now (map line_view lines.now) result }
{
    let typed = taken(alloc, wasm)?;
    see_empty(files, dir)?;
    let pack = link(alloc, &typed, ns)?;
    play_pack(alloc, files, out, dir, &pack, lines)
}

// Does a job of one module or pack, of whose files these are the bytes and the lines.
fn do_job<F: Files, O: Sink>(
    alloc: Global,
    files: &mut F,
    out: &mut O,
    job: &Job,
    wasm: &[u8],
    lines: &[ScriptLine],
) -> Result<(), Refusal>
    requires fits { job_fits job.now ≡ true }
    requires plain { is_plain job.now ≡ true }
    ensures { IsJobDone job.now
        (outside (F.state files.old) (O.state out.old))
        (outside (F.state files.new) (O.state out.new))
        wasm.now (map line_view lines.now) result }
{
    match job {
        Job::Compile { dir, ns, .. } => compile(alloc, files, out, wasm, dir, ns),
        Job::Costs { dir, ns, .. } => compile_with_costs(alloc, files, out, wasm, dir, ns),
        Job::Run { dir, .. } => play_folder(alloc, files, out, dir, lines),
        Job::Exec { dir, ns, .. } => execute(alloc, files, out, wasm, dir, ns, lines),
        Job::Inspect { dir, ns, .. } => { inspect_module(alloc, files, out, wasm, dir, ns, lines) }
        Job::Gen { .. } | Job::Join { .. } | Job::Multi { .. } => unreachable!(),
    }
}

// Reads the files of a job of one module or pack, and does it.
fn answer<F: Files, O: Sink>(
    alloc: Global,
    files: &mut F,
    out: &mut O,
    job: &Job,
) -> Result<(), Refusal>
    requires fits { job_fits job.now ≡ true }
    requires plain { is_plain job.now ≡ true }
    ensures { IsAnsweredJob job.now
        (outside (F.state files.old) (O.state out.old))
        (outside (F.state files.new) (O.state out.new))
        result }
{
    let inputs = read_inputs(alloc, files, job)?;
    let lines = read_lines_of(alloc, job, inputs.script.as_slice())?;
    do_job(alloc, files, out, job, inputs.wasm.as_slice(), &lines)
}

fn run<F: Files, O: Sink>(
    alloc: Global,
    names: &[Text],
    files: &mut F,
    out: &mut O,
) -> Result<(), Refusal>
    ensures { Ends names.now
        (outside (F.state files.old) (O.state out.old))
        (outside (F.state files.new) (O.state out.new))
        result }
{
    let job = words(alloc, names)?;
    match &job {
        Job::Gen {
            number,
            size,
            file,
            dir,
        } => make_workload(alloc, files, out, *number, *size, file, dir),
        Job::Join {
            file,
            dir,
            ns,
            script,
            libraries,
        } => {
            join_modules(
                alloc,
                files,
                out,
                file,
                dir,
                ns,
                script,
                libraries.as_slice(),
            )
        }
        Job::Multi { script, dirs } => { share_world(alloc, files, out, script, dirs.as_slice()) }
        _ => answer(alloc, files, out, &job),
    }
}

// Tells the cause of a refusal, and gives the status with which the run ends.
fn tell<E: Sink>(alloc: Global, err: &mut E, refusal: &Refusal) -> Status
    ensures { Tells (Err refusal.now) (E.state err.old) (E.state err.new) result }
{
    let Ok(line) = refusal.line(alloc) else {
        return tell_no_memory(err);
    };
    match err.write(line.as_bytes()) {
        Err(WriteAnswer::Memory) => Status::Memory,
        _ => refusal.status(),
    }
}

// Tells want of memory, for which no memory is asked.
fn tell_no_memory<E: Sink>(err: &mut E) -> Status
    ensures partly { IsPartlyTold (line_of refusals.Memory) (E.state err.old) (E.state err.new) }
    ensures status { result ≡ Status.Memory }
{
    let _ = err.write(b"out of memory\n");
    Status::Memory
}

/// Does what the words ask for.
///
/// - `compile FILE DIR NS` compiles the module in FILE into a pack of the namespace NS, writes it into the empty folder
///   DIR, and prints how many files it has.
/// - `costs FILE DIR NS` compiles and writes as `compile` does, and prints for each function how many pieces it has
///   and what the heaviest of them weighs, and the same of the other pieces.
/// - `run DIR SCRIPT` reads the pack that the folder DIR says, and plays the script in SCRIPT over it.
/// - `exec FILE DIR NS SCRIPT` compiles and writes as `compile` does, and then reads back and plays as `run` does.
/// - `gen NUMBER SIZE FILE DIR` writes the workload of a number and a size into FILE, compiles it and writes as
///   `compile` does, under the namespace `gen`, reads back, and prints what the pack and the reduction of the module
///   give.
/// - `join MAIN DIR NS SCRIPT NAME FILE ..` does as `exec` of one module that the module in MAIN and the libraries
///   make, each of which has a name and its module in FILE.
/// - `multi SCRIPT DIR ..` reads the packs that the folders say, and plays the script in SCRIPT over them, in one world
///   and on one budget.
/// - `inspect FILE DIR NS SCRIPT` does as `exec` of a script that may ask where the program is; then it prints what the
///   program shows.
///
/// What is printed goes to `out`. A cause for which not all was done goes to `err`, as one line.
///
/// The status tells how the run ended; each but `Done` has its cause.
///
/// - `Usage` exactly where the words are of none of these forms, or NS is no namespace or the game's own.
/// - `Read` where a read or a listing failed, or a file is longer than its cap.
/// - `Script` where a line of SCRIPT is no script line, before anything is written; or where a line is refused when its
///   turn comes, after what the lines before it print was written.
/// - `Module` where the files were read and SCRIPT has no such line: exactly where the bytes of FILE spell no module,
///   or one that is not in the profile, or one that is not valid. The line tells the first of these causes. Of `join`
///   exactly where the bytes of a file spell no module, or the modules are not linked, or the joined module is not in
///   the profile, or not valid.
/// - `NotEmpty` exactly where the listing of DIR gave a name before a pack was linked. Of `gen` the pack is linked and
///   FILE is written then.
/// - `Write` where a write failed. Nothing is written after it. Where the output failed, the pack stands, and `out`
///   took a prefix of what is printed.
/// - `Pack` exactly where the files in DIR say no pack, for the first cause. This can't be of `exec`, `gen`, `join` and
///   `inspect` where the files hold what was written. Of `multi` also exactly where two packs have one namespace, or else a line
///   isn't tidy under its pack's.
/// - `Memory` where there was no memory. Some of the pack's files, in the order of writing, and a prefix of the next
///   one may then stand, and nothing else has changed; only where all of them stand `out` may have taken a prefix of
///   what is printed. Or there was no memory for the line of another cause.
///
/// An `err` that fails changes no status.
///
/// Where all that the words name is in order and no call fails, the status is `Done` or `Memory`: FILE is a valid
/// module of the profile, or for `join` the modules are linked and make one; DIR is empty, for `gen` once FILE is
/// written, or holds a pack for `run`, as each DIR does for `multi`, with packs that are tidy under namespaces that
/// differ; and SCRIPT is a script of which no line is refused.
pub fn top<F: Files, O: Sink, E: Sink>(
    alloc: Global,
    names: &[Text],
    files: &mut F,
    out: &mut O,
    err: &mut E,
) -> Status
    ensures told { IsRun names.now
        (outside (F.state files.old) (O.state out.old))
        (outside (F.state files.new) (O.state out.new))
        (E.state err.old) (E.state err.new) result }
    ensures complete { IsInOrder names.now
        (outside (F.state files.old) (O.state out.old))
        (outside (F.state files.new) (O.state out.new))
        → IsDoneOrMemory result }
{
    match run(alloc, names, files, out) {
        Ok(()) => Status::Done,
        Err(refusal) => tell(alloc, err, &refusal),
    }
}
