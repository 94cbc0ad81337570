ghost use Rattle.std.specs.Prelude.{◌≡◌, IfOk, OnErr, OnOk};
ghost use Rattle.std.specs.FinMap.{get};
ghost use Rattle.std.specs.Option.{option_copied};
ghost use Rattle.io_dev.specs.Files.{IsFileRead, IsFolderListed, IsFileWritten};
ghost use Rattle.io_dev.specs.Plan.{must_fail, ReadFailsIf, NamesFailsIf, WriteFailsIf};
ghost use Rattle.io_dev.specs.MemFiles.{first_state, state_of, files_of, with_bytes, must_fail_read};
ghost use Rattle.io_dev.specs.MemFiles.{after_read, after_names, after_write};

use crate::faults::Faults;
use crate::listing::{names_in, texts_of};
use crate::plan::{Plan, prefix_of};
use crate::{Fails, Files, NamesAnswer, ReadAnswer, WriteAnswer};
use mc_nbt::{Bytes, Memory, Text, Texts};
use std::alloc::Global;
use std::collections::BTreeMap;

/// Files in memory, for tests. It tells what it holds, and fails at the calls that its plan names.
///
/// Its calls are counted from 0, reads, listings and writes together. The count stops at 2^64 - 1,
/// so that each call from the one of that number on has that number, and fails if it is planned.
#[derive(Debug, Drop)]
pub struct MemFiles {
    alloc: Global,
    files: BTreeMap<Text, Bytes>,
    plan: Plan,
    faults: Faults,
}

impl MemFiles {
    /// No file, no call yet and no fault.
    ///
    /// # Errors
    ///
    /// `Memory` where there was no memory.
    pub fn new(alloc: Global, fails: Fails) -> Result<MemFiles, Memory>
        ensures { IfOk result (λ files. state_of files ≡ first_state fails) }
    {
        Ok(MemFiles {
            alloc,
            files: BTreeMap::new(alloc),
            plan: Plan::new(fails),
            faults: Faults::new(),
        })
    }

    /// Puts these bytes at `path`, and changes no other path. It is not counted as a call.
    ///
    /// # Errors
    ///
    /// `Memory` where there is no room for the bytes; nothing is then changed.
    #[tactic(auto, using(crate::proofs::FilesAsMap::insert_file))]
    pub fn put(&mut self, path: &Text, bytes: &[u8]) -> Result<(), Memory>
        ensures ok { OnOk result
            (state_of self.new ≡ with_bytes (state_of self.old) path.now bytes.now) }
        ensures err { OnErr result (state_of self.new ≡ state_of self.old) }
    {
        let path = path.clone()?;
        let bytes = Bytes::new(self.alloc, bytes)?;
        self.files.insert(path, bytes)?;
        Ok(())
    }

    /// The bytes at `path`, if a file stands there. It is not counted as a call.
    #[tactic(auto, using(crate::proofs::FilesAsMap::get_file))]
    pub fn bytes(&self, path: &Text) -> Option<&[u8]>
        ensures { option_copied result ≡ get (state_of self.now).folder path.now }
    {
        self.files.get(path).map(Bytes::as_slice)
    }

    /// How many calls there were, up to 2^64 - 1.
    pub fn calls(&self) -> u64
        ensures { result ≡ (state_of self.now).calls }
    {
        self.plan.calls
    }
}

impl Files for MemFiles {
    ghost state = { files_of };

    /// As the trait says. It fails exactly where the call is planned or no file stands at `path`,
    /// but for want of memory.
    #[tactic(auto, using(crate::proofs::FilesAsMap::get_file))]
    fn read(&mut self, path: &Text, cap: u64) -> Result<Bytes, ReadAnswer>
        ensures read { IsFileRead (files_of self.old) (files_of self.new) path.now cap result }

        // What a plan adds.
        ensures fails { ReadFailsIf (must_fail_read (state_of self.old) path.now) result }
        ensures after { state_of self.new ≡ after_read (state_of self.old) path.now result }
    {
        let planned = self.plan.next_call();
        match self.files.get(path) {
            Some(bytes) if planned.is_none() => {
                let bytes = bytes.as_slice();
                if bytes.len() as u64 > cap {
                    return Err(ReadAnswer::TooLong);
                }
                Ok(Bytes::new(self.alloc, bytes)?)
            }
            _ => {
                self.faults.fail_read(path.clone()?);
                Err(ReadAnswer::Failed)
            }
        }
    }

    /// As the trait says. It fails exactly where the call is planned, but for want of memory.
    fn names(&mut self, dir: &Text) -> Result<Texts, NamesAnswer>
        ensures listed { IsFolderListed (files_of self.old) (files_of self.new) dir.now result }

        // What a plan adds.
        ensures fails { NamesFailsIf
            (must_fail (state_of self.old).fails (state_of self.old).calls) result }
        ensures after { state_of self.new ≡ after_names (state_of self.old) dir.now result }
    {
        if self.plan.next_call().is_some() {
            self.faults.fail_read(dir.clone()?);
            return Err(NamesAnswer::Failed);
        }
        let names = names_in(self.alloc, &self.files, dir)?;
        Ok(texts_of(self.alloc, names)?)
    }

    /// As the trait says. It fails exactly where the call is planned, but for want of memory, and then
    /// leaves the planned prefix of the bytes at `path`. After `Memory` nothing has changed but the
    /// number of calls.
    fn write(&mut self, path: &Text, bytes: &[u8]) -> Result<(), WriteAnswer>
        ensures written { IsFileWritten (files_of self.old) (files_of self.new)
            path.now bytes.now result }

        // What a plan adds.
        ensures fails { WriteFailsIf
            (must_fail (state_of self.old).fails (state_of self.old).calls) result }
        ensures after { state_of self.new
            ≡ after_write (state_of self.old) path.now bytes.now result }
    {
        match self.plan.next_call() {
            None => Ok(self.put(path, bytes)?),
            Some(prefix) => {
                let failed = path.clone()?;
                self.put(path, prefix_of(bytes, prefix))?;
                self.faults.fail_write(failed);
                Err(WriteAnswer::Failed)
            }
        }
    }
}
