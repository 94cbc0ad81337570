ghost use Rattle.io_dev.specs.Files.{FilesState, IsFileRead, IsFolderListed, IsFileWritten};

use crate::{NamesAnswer, ReadAnswer, WriteAnswer};
use mc_nbt::{Bytes, Text, Texts};

/// Files by their paths. The parts of a path are divided by `/`.
///
/// A `Failed` comes only where the device failed: it raises the count of faults of its kind, which
/// stops at 2^64 - 1, and leaves the path that it was about as the last one that failed. Each other
/// answer leaves the counts and that path.
pub trait Files {
    /// The bytes at each path, where they are told; how often a read or a listing and how often a
    /// write has failed; and the path handed to the last call that answered `Failed`, if there was
    /// one.
    ghost state: { Self → FilesState };

    /// The bytes of the file at `path`, which are at most `cap`. It changes no file.
    ///
    /// # Errors
    ///
    /// - `Failed` where the device failed or there is no such file; the count of faults of reads is
    ///   then one higher.
    /// - `TooLong` where the file has more than `cap` bytes.
    /// - `Memory` where there is no room for the bytes.
    fn read(&mut self, path: &Text, cap: u64) -> Result<Bytes, ReadAnswer>
        ensures { IsFileRead (state self.old) (state self.new) path.now cap result };

    /// The names that stand directly in `dir`, in rising order of their bytes, each once: those of
    /// the paths that begin with `dir` and `/`, also where `dir` is empty. The name of a folder ends
    /// with `/`. A folder that is absent has no names. It changes no file.
    ///
    /// # Errors
    ///
    /// - `Failed` where the device failed; the count of faults of reads is then one higher.
    /// - `Memory` where there is no room for the names.
    fn names(&mut self, dir: &Text) -> Result<Texts, NamesAnswer>
        ensures { IsFolderListed (state self.old) (state self.new) dir.now result };

    /// Puts exactly these bytes at `path`, and makes the folders on the way that are missing. No
    /// other path is changed.
    ///
    /// # Errors
    ///
    /// After either the path holds what it held before or a prefix of the bytes, and no other path
    /// has changed.
    ///
    /// - `Failed` where the device failed; the count of faults of writes is then one higher.
    /// - `Memory` where there was no memory.
    fn write(&mut self, path: &Text, bytes: &[u8]) -> Result<(), WriteAnswer>
        ensures { IsFileWritten (state self.old) (state self.new) path.now bytes.now result };
}
