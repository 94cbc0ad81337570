//! The words of the command line.

ghost use Rattle.std.specs.Prelude.{◌≡◌, ◌∷◌, ◌&&◌, [], IfOk};
ghost use Rattle.std.specs.Str.{bytes_eq};
ghost use Rattle.mc_cmd.specs.Packing as packing;
ghost use Rattle.app_words.specs.Words.{ReadsWords};
ghost use Rattle.app_words.specs.steps.WordsReading.{gen_of, job_of, join_of, multi_of, pairs_read, single_of};
ghost use Rattle.app_words.specs.steps.WordsReading.{workload_number, workload_size};
ghost use Rattle.app_words.specs.declared.command_line.Job.TheVariants as jobs;
ghost use Rattle.app_words.specs.declared.command_line.WordsFault.TheVariants as faults;

use crate::named_files::{NamedFile, NamedFiles};
use crate::number::{read_workload_number, read_workload_size};
use mc_cmd::is_pack_namespace;
use mc_nbt::{Memory, Text, Texts};
use std::alloc::Global;

/// How many libraries a module is joined with at most.
const MAX_LIBRARIES: usize = 16;

/// How many programs share a world at most.
const MAX_PROGRAMS: usize = 16;

/// What the words ask for.
#[derive(Drop)]
pub enum Job {
    /// `compile FILE DIR NS`: writes the pack of a module.
    Compile {
        file: Text,
        dir: Text,
        ns: Text,
    },
    /// `costs FILE DIR NS`: writes the pack of a module, and tells what its pieces weigh.
    Costs {
        file: Text,
        dir: Text,
        ns: Text,
    },
    /// `run DIR SCRIPT`: plays a script over the pack of a folder.
    Run {
        dir: Text,
        script: Text,
    },
    /// `exec FILE DIR NS SCRIPT`: writes the pack of a module, and plays a script over it.
    Exec {
        file: Text,
        dir: Text,
        ns: Text,
        script: Text,
    },
    /// `gen NUMBER SIZE FILE DIR`: writes the workload of a number and a size, and its pack, and plays both.
    Gen {
        number: u64,
        size: u32,
        file: Text,
        dir: Text,
    },
    /// `join MAIN DIR NS SCRIPT NAME FILE ..`: joins a module with libraries, writes the pack of what they make, and
    /// plays a script over it. There are 1 to 16 libraries.
    Join {
        file: Text,
        dir: Text,
        ns: Text,
        script: Text,
        libraries: NamedFiles,
    },
    /// `multi SCRIPT DIR ..`: plays a script over the packs of 1 to 16 folders, in one world and on one budget.
    Multi {
        script: Text,
        dirs: Texts,
    },
    /// `inspect FILE DIR NS SCRIPT`: as `exec`, of a script that may ask where the program is.
    Inspect {
        file: Text,
        dir: Text,
        ns: Text,
        script: Text,
    },
}

/// Why words name no job.
#[derive(Clone, Copy, Debug, PartialEq, Eq)]
pub enum WordsFault {
    /// The words are in none of the forms.
    Usage,
    /// There was no room for the job.
    Memory,
}

impl From<Memory> for WordsFault {
    ghost from_gives = { λ _ e. e ≡ faults.Memory };

    fn from(_: Memory) -> Self {
        WordsFault::Memory
    }
}

fn compile_job(alloc: Global, file: &Text, dir: &Text, ns: &Text) -> Result<Job, Memory>
    ensures { IfOk result (λ job. job ≡ jobs.Compile file.now dir.now ns.now) }
{
    Ok(Job::Compile {
        file: Text::new(alloc, file.as_str())?,
        dir: Text::new(alloc, dir.as_str())?,
        ns: Text::new(alloc, ns.as_str())?,
    })
}

fn costs_job(alloc: Global, file: &Text, dir: &Text, ns: &Text) -> Result<Job, Memory>
    ensures { IfOk result (λ job. job ≡ jobs.Costs file.now dir.now ns.now) }
{
    Ok(Job::Costs {
        file: Text::new(alloc, file.as_str())?,
        dir: Text::new(alloc, dir.as_str())?,
        ns: Text::new(alloc, ns.as_str())?,
    })
}

fn run_job(alloc: Global, dir: &Text, script: &Text) -> Result<Job, Memory>
    ensures { IfOk result (λ job. job ≡ jobs.Run dir.now script.now) }
{
    Ok(Job::Run {
        dir: Text::new(alloc, dir.as_str())?,
        script: Text::new(alloc, script.as_str())?,
    })
}

fn exec_job(alloc: Global, file: &Text, dir: &Text, ns: &Text, script: &Text) -> Result<Job, Memory>
    ensures { IfOk result (λ job. job ≡ jobs.Exec file.now dir.now ns.now script.now) }
{
    Ok(Job::Exec {
        file: Text::new(alloc, file.as_str())?,
        dir: Text::new(alloc, dir.as_str())?,
        ns: Text::new(alloc, ns.as_str())?,
        script: Text::new(alloc, script.as_str())?,
    })
}

fn inspect_job(
    alloc: Global,
    file: &Text,
    dir: &Text,
    ns: &Text,
    script: &Text,
) -> Result<Job, Memory>
    ensures { IfOk result (λ job. job ≡ jobs.Inspect file.now dir.now ns.now script.now) }
{
    Ok(Job::Inspect {
        file: Text::new(alloc, file.as_str())?,
        dir: Text::new(alloc, dir.as_str())?,
        ns: Text::new(alloc, ns.as_str())?,
        script: Text::new(alloc, script.as_str())?,
    })
}

// The job of a number and a size, where the words spell them.
fn gen_job(
    alloc: Global,
    number: &Text,
    size: &Text,
    file: &Text,
    dir: &Text,
) -> Result<Option<Job>, Memory>
    ensures { IfOk result (λ o. o
        ≡ gen_of file.now dir.now (workload_number.read number.now) (workload_size.read size.now)) }
{
    let Some(number) = read_workload_number(number.as_bytes()) else {
        return Ok(None);
    };
    let Some(size) = read_workload_size(size.as_bytes()) else {
        return Ok(None);
    };
    Ok(Some(Job::Gen {
        number,
        size,
        file: Text::new(alloc, file.as_str())?,
        dir: Text::new(alloc, dir.as_str())?,
    }))
}

// The names and files that words tell, two words each; `None` exactly where a word is left.
fn read_pairs(alloc: Global, words: &[Text]) -> Result<Option<NamedFiles>, Memory>
    ensures { IfOk result (λ o. o ≡ pairs_read words.now) }
{
    let mut files = NamedFiles::new(alloc);
    let mut left = words;
    while let [name, file, after @ ..] = left {
        files.push(NamedFile {
            name: Text::new(alloc, name.as_str())?,
            file: Text::new(alloc, file.as_str())?,
        })?;
        left = after;
    }
    if left.is_empty() {
        Ok(Some(files))
    } else {
        Ok(None)
    }
}

// The job of a module and libraries, where there are 1 to 16 of these.
fn join_job(
    alloc: Global,
    file: &Text,
    dir: &Text,
    ns: &Text,
    script: &Text,
    pairs: &[Text],
) -> Result<Option<Job>, Memory>
    ensures { IfOk result (λ o. o ≡ join_of file.now dir.now ns.now script.now (pairs_read pairs.now)) }
{
    let Some(libraries) = read_pairs(alloc, pairs)? else {
        return Ok(None);
    };
    if libraries.is_empty() || libraries.len() > MAX_LIBRARIES {
        return Ok(None);
    }
    Ok(Some(Job::Join {
        file: Text::new(alloc, file.as_str())?,
        dir: Text::new(alloc, dir.as_str())?,
        ns: Text::new(alloc, ns.as_str())?,
        script: Text::new(alloc, script.as_str())?,
        libraries,
    }))
}

// Copies of the words.
fn copies_of(alloc: Global, words: &[Text]) -> Result<Texts, Memory>
    ensures { IfOk result (λ ts. ts ≡ words.now) }
{
    let mut copies = Texts::new(alloc);
    for word in words {
        copies.push(Text::new(alloc, word.as_str())?)?;
    }
    Ok(copies)
}

// The job of several programs, where there are 1 to 16 folders.
fn multi_job(alloc: Global, script: &Text, dirs: &[Text]) -> Result<Option<Job>, Memory>
    ensures { IfOk result (λ o. o ≡ multi_of script.now dirs.now) }
{
    if dirs.is_empty() || dirs.len() > MAX_PROGRAMS {
        return Ok(None);
    }
    Ok(Some(Job::Multi {
        script: Text::new(alloc, script.as_str())?,
        dirs: copies_of(alloc, dirs)?,
    }))
}

// The words name a form, and a pack's namespace.
fn is_form_with(form: &Text, name: &str, ns: &Text) -> bool
    ensures { result ≡ bytes_eq form.now name.now && packing.is_pack_namespace ns.now }
{
    form.as_str() == name && is_pack_namespace(ns.as_bytes())
}

// The job that these five words name, if they name one.
fn read_five(
    alloc: Global,
    form: &Text,
    second: &Text,
    third: &Text,
    fourth: &Text,
    fifth: &Text,
) -> Result<Option<Job>, Memory>
    ensures { IfOk result (λ o. o
        ≡ single_of (form.now ∷ second.now ∷ third.now ∷ fourth.now ∷ fifth.now ∷ [])) }
{
    if is_form_with(form, "exec", fourth) {
        return Ok(Some(exec_job(alloc, second, third, fourth, fifth)?));
    }
    if is_form_with(form, "inspect", fourth) {
        return Ok(Some(inspect_job(alloc, second, third, fourth, fifth)?));
    }
    if form.as_str() == "gen" {
        return gen_job(alloc, second, third, fourth, fifth);
    }
    Ok(None)
}

// The job that the words name, if they name one and don't begin with `multi`.
fn read_single(alloc: Global, words: &[Text]) -> Result<Option<Job>, Memory>
    ensures { IfOk result (λ o. o ≡ single_of words.now) }
{
    match words {
        [form, dir, script] if form.as_str() == "run" => Ok(Some(run_job(alloc, dir, script)?)),
        [form, file, dir, ns] if is_form_with(form, "compile", ns) => {
            Ok(Some(compile_job(alloc, file, dir, ns)?))
        }
        [form, file, dir, ns] if is_form_with(form, "costs", ns) => {
            Ok(Some(costs_job(alloc, file, dir, ns)?))
        }
        [form, second, third, fourth, fifth] => {
            read_five(alloc, form, second, third, fourth, fifth)
        }
        [form, file, dir, ns, script, pairs @ ..] if is_form_with(form, "join", ns) => {
            join_job(alloc, file, dir, ns, script, pairs)
        }
        _ => Ok(None),
    }
}

// The job that the words name, if they name one.
fn read_words(alloc: Global, words: &[Text]) -> Result<Option<Job>, Memory>
    ensures { IfOk result (λ o. o ≡ job_of words.now) }
{
    match words {
        [form, script, dirs @ ..] if form.as_str() == "multi" => multi_job(alloc, script, dirs),
        _ => read_single(alloc, words),
    }
}

/// The job that the words after the program's name ask for.
///
/// # Errors
///
/// - `Usage` exactly where the words are in none of the forms of `Job`. NS has 1 to 16 small letters, digits and `_`,
///   and isn't `minecraft`. NUMBER is below 2^64 and SIZE from 1 to 1,000, in decimal without leading zeros.
///   A module is joined with 1 to 16 libraries; any text is a library's name. 1 to 16 programs share a world.
/// - `Memory` where there is no room for the job.
pub fn words(alloc: Global, words: &[Text]) -> Result<Job, WordsFault>
    ensures { ReadsWords words.now result }
{
    match read_words(alloc, words)? {
        Some(job) => Ok(job),
        None => Err(WordsFault::Usage),
    }
}
