ghost use Rattle.std.specs.Prelude.{◌≡◌, ◌==◌, [], ◌∷◌, ◌++◌, OnOk, OnErr, length};

use mc_nbt::{Memory, Text};
use std::alloc::Global;
use std::marker::Model;

/// A library as the command line tells it: the name by which other modules import from it, and the file that holds it.
#[derive(Debug, Drop)]
pub struct NamedFile {
    /// By which other modules import from it.
    pub name: Text,
    /// Where the module stands.
    pub file: Text,
}

/// A list of names and files.
#[derive(Debug, Drop)]
pub struct NamedFiles {
    files: Vec<NamedFile>,
}

impl Model for NamedFiles {
    ghost use Rattle.std.specs.Prelude.{List};
    ghost use Rattle.app_words.specs.declared.named_files.NamedFile.{NamedFile};

    ghost Value = { List NamedFile };

    ghost view = { λ f. f.files.items };
}

impl NamedFiles {
    /// No name and no file.
    pub fn new(alloc: Global) -> NamedFiles
        ensures { result ≡ [] }
    {
        NamedFiles {
            files: Vec::new(alloc),
        }
    }

    /// The names and files in their order.
    pub fn as_slice(&self) -> &[NamedFile]
        ensures { result.now ≡ self.now }
    {
        self.files.as_slice()
    }

    /// How many there are.
    pub fn len(&self) -> usize
        ensures { result ≡ length self.now }
    {
        self.as_slice().len()
    }

    /// Whether there is none.
    pub fn is_empty(&self) -> bool
        ensures { result ≡ (length self.now == 0) }
    {
        self.as_slice().is_empty()
    }

    /// Adds a name and a file at the end.
    ///
    /// # Errors
    ///
    /// `Memory` where there is no room for one more; the list is then as it was.
    pub fn push(&mut self, file: NamedFile) -> Result<(), Memory>
        ensures ok { OnOk result (self.new ≡ self.old ++ file ∷ []) }
        ensures err { OnErr result (self.new ≡ self.old) }
    {
        self.files.push(file)?;
        Ok(())
    }
}
