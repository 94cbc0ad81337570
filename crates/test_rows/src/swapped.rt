ghost use Rattle.std.specs.Prelude.{◌≡◌};
ghost use Rattle.test_rows.specs.Hidden.{hidden};

use io_dev::{Files, MemFiles, NamesAnswer, ReadAnswer, WriteAnswer};
use mc_nbt::{Bytes, Memory, Text, Texts};
use std::alloc::Global;

/// Files in memory, some of which another hand puts there just before each read. It tells nothing of
/// what it holds, and keeps the paths of the writes.
#[derive(Debug, Drop)]
pub struct SwappedFiles {
    /// The files.
    pub files: MemFiles,
    swaps: MemFiles,
    writes: Texts,
}

impl SwappedFiles {
    /// These files. Before each read of a path at which `swaps` holds a file, that file is put there.
    pub fn new(alloc: Global, files: MemFiles, swaps: MemFiles) -> SwappedFiles {
        SwappedFiles {
            files,
            swaps,
            writes: Texts::new(alloc),
        }
    }

    /// The path of each write so far, in their order, those included that failed.
    pub fn writes(&self) -> &[Text] {
        self.writes.as_slice()
    }

    /// Puts the file there that another hand has for this path.
    fn swap(&mut self, path: &Text) -> Result<(), Memory>
        ensures { hidden self.new.files ≡ hidden self.old.files }
    {
        match self.swaps.bytes(path) {
            None => Ok(()),
            Some(bytes) => self.files.put(path, bytes),
        }
    }
}

impl Files for SwappedFiles {
    ghost state = { λ s. hidden s.files };

    fn read(&mut self, path: &Text, cap: u64) -> Result<Bytes, ReadAnswer> {
        self.swap(path)?;
        self.files.read(path, cap)
    }

    fn names(&mut self, dir: &Text) -> Result<Texts, NamesAnswer> {
        self.files.names(dir)
    }

    fn write(&mut self, path: &Text, bytes: &[u8]) -> Result<(), WriteAnswer> {
        self.writes.push(path.clone()?)?;
        self.files.write(path, bytes)
    }
}
