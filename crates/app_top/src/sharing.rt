//! Jobs of several programs.

ghost use Rattle.std.specs.Prelude.{◌≡◌, ◌<◌, ◌≤◌, length, true};
ghost use Rattle.app_words.specs.Words.{is_program_count};
ghost use Rattle.app_top.specs.Outside.{outside};
ghost use Rattle.app_top.specs.Sharing.{IsSharedAnswered, of_get_at};
ghost use Rattle.app_top.specs.steps.ShareRun.{ArePacksRead, AreProgramsMade, AreSharedLinesRead, IsPackReadAt};
ghost use Rattle.app_top.specs.steps.ShareRun.{IsUntidyTold, of_shared};

use crate::inputs::{FILE_CAP, copy_of, read};
use crate::refusal::Refusal;
use app_together::play_together;
use app_words::{ScriptFault, SharedLine, script_multi};
use io_dev::{Files, Sink};
use mc_cmd::{BMIN, Pack};
use mc_nbt::Text;
use pk_files::{GetFault, PACK_CAP, read_pack};
use pk_multi::{MultiFault, Programs};
use std::alloc::Global;

// The refusal of a script over so many programs.
fn refused_script(fault: ScriptFault, count: u32) -> Refusal
    requires { count ≤ 16 }
    ensures { result ≡ of_shared count fault }
{
    match fault {
        ScriptFault::Line { line, low: true } => Refusal::LowBudget {
            line,
            least: BMIN * count,
        },
        ScriptFault::Line { line, low: false } => Refusal::Script { line, low: false },
        ScriptFault::Memory => Refusal::Memory,
    }
}

// The lines of a script over so many programs.
fn read_shared_lines(alloc: Global, bytes: &[u8], count: u32) -> Result<Vec<SharedLine>, Refusal>
    requires least { 1 ≤ count }
    requires most { count ≤ 16 }
    ensures { AreSharedLinesRead count bytes.now result }
{
    match script_multi(alloc, bytes, count) {
        Ok(lines) => Ok(lines),
        Err(fault) => Err(refused_script(fault, count)),
    }
}

// Why the folder at a path says no pack.
fn refused_folder(path: Text, fault: GetFault) -> Refusal
    ensures { result ≡ of_get_at path fault }
{
    match fault {
        GetFault::ListFailed { path } => Refusal::CannotList(path),
        GetFault::Failed { path } => Refusal::CannotRead(path),
        GetFault::TooLong { path } => Refusal::TooLong {
            path,
            cap: PACK_CAP,
        },
        GetFault::Memory => Refusal::Memory,
        fault => Refusal::NoPackAt { path, fault },
    }
}

// The pack that the folder at a path says.
fn read_pack_at<F: Files>(alloc: Global, files: &mut F, dir: &Text) -> Result<Pack, Refusal>
    ensures { IsPackReadAt (F.state files.old) (F.state files.new) dir.now result }
{
    // Copied first, so that a refused folder is told without a need of memory.
    let path = copy_of(dir)?;
    match read_pack(alloc, files, dir) {
        Ok(pack) => Ok(pack),
        Err(fault) => Err(refused_folder(path, fault)),
    }
}

// The packs that the folders say, in their order.
fn read_packs<F: Files>(alloc: Global, files: &mut F, dirs: &[Text]) -> Result<Vec<Pack>, Refusal>
    ensures { ArePacksRead (F.state files.old) (F.state files.new) dirs.now result }
{
    let mut packs = Vec::new(alloc);
    for dir in dirs {
        let pack = read_pack_at(alloc, files, dir)?;
        packs.push(pack)?;
    }
    Ok(packs)
}

// The refusal of a line that isn't tidy, in the pack of the folder at this place.
fn untidy_at(dirs: &[Text], place: usize, name: Text, line: usize) -> Refusal
    requires { place < length dirs.now }
    ensures { IsUntidyTold dirs.now place name line result }
{
    match copy_of(&dirs[place]) {
        Ok(path) => Refusal::Untidy { path, name, line },
        Err(_) => Refusal::Memory,
    }
}

// The programs of the packs of these folders, where they may live together.
fn programs_of(alloc: Global, packs: Vec<Pack>, dirs: &[Text]) -> Result<Programs, Refusal>
    requires some { 0 < length packs.items }
    requires few { length packs.items ≤ 16 }
    requires same { length packs.items ≡ length dirs.now }
    ensures { AreProgramsMade packs.items dirs.now result }
{
    match Programs::new(alloc, packs) {
        Ok(programs) => Ok(programs),
        Err(MultiFault::SameSpace { index }) => Err(Refusal::SameSpace { place: index }),
        Err(MultiFault::Untidy { index, name, line }) => Err(untidy_at(dirs, index, name, line)),
        Err(MultiFault::Memory) => Err(Refusal::Memory),
    }
}

/// Reads the packs that the folders say, and plays the lines of the script over them, in one world and on one budget.
///
/// # Errors
///
/// The first cause for which not all was done, in this order: a script that isn't read; `Script` or `LowBudget`; the
/// folders in their order, each as `run` refuses it, with `NoPackAt` for what tells that its files say no pack;
/// `SameSpace`; `Untidy`; and behind them those of a script that is played. `Memory` may come at any point.
pub fn share_world<F: Files, O: Sink>(
    alloc: Global,
    files: &mut F,
    out: &mut O,
    script: &Text,
    dirs: &[Text],
) -> Result<(), Refusal>
    requires { is_program_count (length dirs.now) ≡ true }
    ensures { IsSharedAnswered script.now dirs.now
        (outside (F.state files.old) (O.state out.old))
        (outside (F.state files.new) (O.state out.new))
        result }
{
    let bytes = read(files, script, FILE_CAP)?;
    let lines = read_shared_lines(alloc, bytes.as_slice(), dirs.len() as u32)?;
    let packs = read_packs(alloc, files, dirs)?;
    let programs = programs_of(alloc, packs, dirs)?;
    play_together(alloc, out, programs, &lines)?;
    Ok(())
}
