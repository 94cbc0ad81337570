ghost use Rattle.std.specs.Prelude.{◌≡◌, ◌≤◌, None, IfOk, IfSome, length, take, vec_len};
ghost use Rattle.std.specs.BTreeSet.{btree_set_len};
ghost use Rattle.std.specs.IoError.{error_kind};
ghost use Rattle.io_dev.specs.declared.disk_files.Stop.TheVariants as variant;
ghost use Rattle.io_dev.specs.DiskFiles.{untold};
ghost use Rattle.io_dev.specs.Files.{IsFolderListed};
ghost use Rattle.io_dev.specs.steps.Stopping.{stop_of};

use crate::faults::Faults;
use crate::listing::{folder_name, texts_of};
use crate::stream::{is_memory, write_whole};
use crate::{Files, NamesAnswer, ReadAnswer, WriteAnswer};
use mc_nbt::{Bytes, Memory, Text, Texts};
use std::alloc::{AllocError, AllocFailed, Global};
use std::collections::BTreeSet;
use std::fs::DirEntry;
use std::io::{ErrorKind, Read};
use std::{fs, io};

/// The most names that a listing of [`DiskFiles`] gives.
pub const MAX_NAMES: usize = 2_000_000;

/// The files of the real system. It does not tell what they hold.
///
/// The folder `""` is the root, since the paths in it begin with `/`. A link is followed. A listing fails
/// where it has more than [`MAX_NAMES`] names, where a name is not UTF-8, and where a link in it leads
/// nowhere.
#[derive(Debug, Drop)]
pub struct DiskFiles<R: std::rt::Files + Clone + Drop> {
    alloc: Global,
    rt: R,
    faults: Faults,
}

impl<R: std::rt::Files + Clone + Drop> DiskFiles<R> {
    /// The files that `rt` reaches, with no faults yet. A relative path starts at the folder in which
    /// the process runs.
    pub fn new(alloc: Global, rt: R) -> DiskFiles<R>
        ensures { ⟦<DiskFiles<R> as Files>⟧.state result ≡ untold 0 0 None }
    {
        DiskFiles {
            alloc,
            rt,
            faults: Faults::new(),
        }
    }
}

/// Why the system did not do as it was asked.
enum Stop {
    Fault,
    Memory,
}

impl From<io::Error> for Stop {
    ghost from_gives = { λ error stop. stop ≡ stop_of (error_kind error) };

    fn from(error: io::Error) -> Self {
        if is_memory(&error) {
            Stop::Memory
        } else {
            Stop::Fault
        }
    }
}

impl From<AllocError> for Stop {
    ghost from_gives = { λ _ stop. stop ≡ variant.Memory };

    fn from(_: AllocError) -> Self {
        Stop::Memory
    }
}

impl<T: Drop> From<AllocFailed<T>> for Stop {
    ghost from_gives = { λ _ stop. stop ≡ variant.Memory };

    fn from(_: AllocFailed<T>) -> Self {
        Stop::Memory
    }
}

impl From<Memory> for Stop {
    ghost from_gives = { λ _ stop. stop ≡ variant.Memory };

    fn from(_: Memory) -> Self {
        Stop::Memory
    }
}

/// The bytes of a reader up to its end, and at most `limit` of them.
fn read_up_to<R: Read>(alloc: Global, reader: &mut R, limit: u64) -> Result<Vec<u8>, Stop>
    ensures within { IfOk result (λ bytes. vec_len bytes ≤ limit) }
    ensures known { IfOk result
        (λ bytes. IfSome (R.remaining reader.old) (λ all. bytes.items ≡ take limit all)) }
{
    let mut bytes = Vec::new(alloc);
    let mut buffer = [0u8; 4096];
    while (bytes.len() as u64) < limit {
        let wanted = (limit - bytes.len() as u64).min(4096) as usize;
        let count = reader.read(&mut buffer[..wanted])?;
        if count == 0 {
            break;
        }
        bytes.extend_from_slice(&buffer[..count])?;
    }
    Ok(bytes)
}

fn read_file<R: std::rt::Files>(
    alloc: Global,
    rt: &R,
    path: &str,
    limit: u64,
) -> Result<Vec<u8>, Stop>
    ensures { IfOk result (λ bytes. vec_len bytes ≤ limit) }
{
    let mut file = fs::open(rt, path)?;
    read_up_to(alloc, &mut file, limit)
}

fn write_file<R: std::rt::Files>(rt: &R, path: &str, bytes: &[u8]) -> Result<(), Stop> {
    if let Some((folder, _)) = path.rsplit_once('/') {
        fs::create_dir_all(rt, folder)?;
    }
    let mut file = fs::create(rt, path)?;
    write_whole(&mut file, bytes)?;
    Ok(())
}

/// The name of an entry in a listing.
fn entry_name<R: std::rt::Files>(
    alloc: Global,
    rt: &R,
    entry: &DirEntry<(R, Global), Global>,
) -> Result<Text, Stop> {
    if fs::metadata(rt, entry.path())?.is_dir() {
        Ok(folder_name(alloc, entry.file_name())?)
    } else {
        Ok(Text::new(alloc, entry.file_name())?)
    }
}

fn list_folder<R: std::rt::Files + Clone + Drop>(
    alloc: Global,
    rt: &R,
    dir: &str,
) -> Result<BTreeSet<Text>, Stop>
    ensures { IfOk result (λ names. btree_set_len names ≤ MAX_NAMES) }
{
    let mut names = BTreeSet::new(alloc);
    let pair = (rt.clone()?, alloc);
    // The paths in the folder `""` begin with `/`, so it is the root.
    let folder = if dir.is_empty() { "/" } else { dir };
    let entries = match fs::read_dir(&pair, folder) {
        Ok(entries) => entries,
        Err(error) if error.kind() == ErrorKind::NotFound => return Ok(names),
        Err(error) => return Err(Stop::from(error)),
    };
    for entry in entries {
        if names.len() >= MAX_NAMES {
            return Err(Stop::Fault);
        }
        let name = entry_name(alloc, rt, &entry?)?;
        names.insert(name)?;
    }
    Ok(names)
}

impl<R: std::rt::Files + Clone + Drop> Files for DiskFiles<R> {
    ghost state = { λ d. untold d.faults.reads d.faults.writes d.faults.last };

    fn read(&mut self, path: &Text, cap: u64) -> Result<Bytes, ReadAnswer> {
        let failed = path.clone()?;
        match read_file(self.alloc, &self.rt, path.as_str(), cap.saturating_add(1)) {
            Ok(bytes) if bytes.len() as u64 > cap => Err(ReadAnswer::TooLong),
            Ok(bytes) => Ok(Bytes::from(bytes)),
            Err(Stop::Memory) => Err(ReadAnswer::Memory),
            Err(Stop::Fault) => {
                self.faults.fail_read(failed);
                Err(ReadAnswer::Failed)
            }
        }
    }

    /// As the trait says. It gives at most [`MAX_NAMES`] names.
    fn names(&mut self, dir: &Text) -> Result<Texts, NamesAnswer>
        ensures names { IsFolderListed
            (⟦<DiskFiles<R> as Files>⟧.state self.old)
            (⟦<DiskFiles<R> as Files>⟧.state self.new) dir.now result }
        ensures few { IfOk result (λ names. length names ≤ MAX_NAMES) }
    {
        let failed = dir.clone()?;
        match list_folder(self.alloc, &self.rt, dir.as_str()) {
            Ok(names) => Ok(texts_of(self.alloc, names)?),
            Err(Stop::Memory) => Err(NamesAnswer::Memory),
            Err(Stop::Fault) => {
                self.faults.fail_read(failed);
                Err(NamesAnswer::Failed)
            }
        }
    }

    fn write(&mut self, path: &Text, bytes: &[u8]) -> Result<(), WriteAnswer> {
        let failed = path.clone()?;
        match write_file(&self.rt, path.as_str(), bytes) {
            Ok(()) => Ok(()),
            Err(Stop::Memory) => Err(WriteAnswer::Memory),
            Err(Stop::Fault) => {
                self.faults.fail_write(failed);
                Err(WriteAnswer::Failed)
            }
        }
    }
}
