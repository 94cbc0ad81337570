ghost use Rattle.std.specs.Prelude.{◌≡◌, ◌<◌, [], ◌∷◌, ◌++◌, IfErr, OnOk, None, Some, length, option_map, slice_get, true, unwrap_or};
ghost use Rattle.std.specs.Map.{lookup};
ghost use Rattle.std.specs.Str.{bytes_eq};
ghost use Rattle.mc_cmd.specs.declared.pack.AddFault.TheVariants as faults;
ghost use Rattle.mc_cmd.specs.Packing as packing;
ghost use Rattle.mc_cmd.specs.Packing.{are_lines, is_written, lines_at, named, names, with_function};
ghost use Rattle.mc_cmd.specs.Word.{is_function_name};

use indexmap::IndexMap;
use mc_nbt::{Kind, Text, Texts};
use std::alloc::{AllocError, AllocFailed, Global};
use std::fmt;
use std::marker::Model;

/// The most functions of a pack.
const MAX_FUNCTIONS: usize = 1_000_000;

/// The type of an exported function.
#[derive(Debug, PartialEq, Eq, Drop)]
pub struct ExportType {
    /// The name under which it is exported.
    pub name: Text,
    /// The kinds of its parameters.
    pub params: Vec<Kind>,
    /// The kind of its result, if it has one.
    pub result: Option<Kind>,
}

/// What a pack says of itself.
#[derive(Debug, PartialEq, Eq, Drop)]
pub struct Index {
    /// The namespace of its functions and its storages.
    pub ns: Text,
    /// The exported functions in their order.
    pub exports: Vec<ExportType>,
}

/// Why a function wasn't added.
#[derive(Clone, Copy, Debug, PartialEq, Eq)]
pub enum AddFault {
    /// A function of this name stands there.
    Twice,
    /// 1,000,000 functions stand there.
    Full,
    /// There is no room for one more.
    Memory,
}

impl fmt::Display for AddFault {
    fn fmt<W: fmt::Write>(&self, f: &mut fmt::Formatter<W>) -> fmt::Result {
        f.write_str(match self {
            AddFault::Twice => "the pack has a function of this name",
            AddFault::Full => "the pack is full",
            AddFault::Memory => "out of memory",
        })
    }
}

impl std::error::Error for AddFault {}

impl From<AllocError> for AddFault {
    ghost from_gives = { λ _ f. f ≡ faults.Memory };

    fn from(_: AllocError) -> Self {
        AddFault::Memory
    }
}

impl<T: Drop> From<AllocFailed<T>> for AddFault {
    ghost from_gives = { λ _ f. f ≡ faults.Memory };

    fn from(_: AllocFailed<T>) -> Self {
        AddFault::Memory
    }
}

/// A pack: its index, and its functions in the order in which they were added, of which there are at most
/// 1,000,000 and no two of one name. Its namespace is one of a pack, and each of its lines is of the grammar. It is
/// seen as its index and the list of its functions' names and lines.
#[derive(Drop)]
pub struct Pack {
    index: Index,
    functions: IndexMap<String, Texts>,
}

impl Model for Pack {
    ghost use Rattle.std.specs.Prelude.{◌≡◌, true};
    ghost use Rattle.mc_cmd.specs.Packing.{Written, is_written, named};

    ghost Value = { Written };

    ghost view = { λ p. record { index = p.index; functions = named p.functions.entries } };

    ghost invariant = { λ p. is_written (record { index = p.index; functions = named p.functions.entries }) ≡ true };
}

impl Pack {
    /// A pack of this index without functions. The namespace is one, and isn't `minecraft`.
    pub fn new(alloc: Global, index: Index) -> Pack
        requires { packing.is_pack_namespace index.ns ≡ true }
        ensures { result ≡ record { index = index; functions = [] } }
    {
        Pack {
            index,
            functions: IndexMap::new(alloc),
        }
    }

    /// Adds the function behind the others. Its name is 1 to 64 small letters, digits and `_`, and each of its
    /// lines is of the grammar.
    ///
    /// # Errors
    ///
    /// `Twice` exactly where the name stands there, else `Full` exactly where 1,000,000 functions do, else
    /// `Memory` where there is no room for one more. The pack is then as it was.
    pub fn add(&mut self, name: Text, lines: Texts) -> Result<(), AddFault>
        requires name { is_function_name name ≡ true }
        requires lines { are_lines lines ≡ true }
        ensures ok { OnOk result ((packing.refusal self.old name ≡ None) × (self.new ≡ with_function self.old name lines)) }
        ensures err { IfErr result (λ e. (self.new ≡ self.old) × (e ≡ unwrap_or (packing.refusal self.old name) faults.Memory)) }
    {
        if let Some(fault) = self.refusal(&name) {
            return Err(fault);
        }
        push_function(&mut self.functions, &name, lines)
    }

    // Why no function of this name may be added.
    fn refusal(&self, name: &Text) -> Option<AddFault>
        ensures { result ≡ packing.refusal self.now name.now }
    {
        if self.lines(name).is_some() {
            Some(AddFault::Twice)
        } else if self.functions() >= MAX_FUNCTIONS {
            Some(AddFault::Full)
        } else {
            None
        }
    }

    /// What the pack says of itself.
    pub fn index(&self) -> &Index
        ensures index { result.now ≡ self.now.index }
        ensures written { is_written self.now ≡ true }
    {
        &self.index
    }

    /// The number of functions.
    pub fn functions(&self) -> usize
        ensures { result ≡ length self.now.functions }
    {
        self.functions.len()
    }

    /// The name of the function at this place of the order.
    pub fn name(&self, at: usize) -> &str
        requires { at < length self.now.functions }
        ensures { slice_get (names self.now) at ≡ Some result.now }
    {
        match self.functions.get_index(at) {
            Some((name, _)) => name.as_str(),
            None => unreachable!(),
        }
    }

    /// The lines of the function of this name; `None` exactly where there is none.
    pub fn lines(&self, name: &Text) -> Option<&Texts>
        ensures { option_map (λ t. t.now) result ≡ lines_at self.now name.now }
    {
        self.functions.get(name.as_str())
    }
}

// Puts the lines under a name that doesn't stand there.
fn push_function(
    functions: &mut IndexMap<String, Texts>,
    name: &Text,
    lines: Texts,
) -> Result<(), AddFault>
    requires { lookup (bytes_eq name.now) (named functions.old.entries) ≡ None }
    ensures ok { OnOk result (named functions.new.entries ≡ named functions.old.entries ++ ((name.now, lines) ∷ [])) }
    ensures err { IfErr result (λ e. (named functions.new.entries ≡ named functions.old.entries) × (e ≡ faults.Memory)) }
{
    let key = String::from_str(*functions.allocator(), name.as_str())?;
    functions.insert(key, lines)?;
    Ok(())
}
