ghost use Rattle.std.specs.Prelude.{◌≡◌, Some};
ghost use Rattle.wm_match.specs.FaultLine.{fault_line, single_word};
ghost use Rattle.wm_match.specs.declared.fault.MatchFault.TheVariants as faults;

use mc_nbt::Memory;
use std::alloc::AllocFailed;
use std::fmt;

/// What all linked modules together define at most one of.
#[derive(Clone, Copy, Debug, PartialEq, Eq)]
pub enum Single {
    /// A memory.
    Memory,
    /// A table.
    Table,
}

impl fmt::Display for Single {
    ghost output = { λ single. Some (single_word single) };

    fn fmt<W: fmt::Write>(&self, f: &mut fmt::Formatter<W>) -> fmt::Result {
        match self {
            Single::Memory => write!(f, "memory"),
            Single::Table => write!(f, "table"),
        }
    }
}

/// Why modules aren't linked. Modules are told by their numbers, and imports by their places among those of their
/// module.
#[derive(Clone, Copy, Debug, PartialEq, Eq)]
pub enum MatchFault {
    /// This is the first library with the name of an earlier one.
    SameName {
        /// The number of the library.
        module: u32,
    },
    /// This is the first import that is a global.
    GlobalImport {
        /// The number of the module that imports it.
        module: u32,
        /// Its place among the module's imports.
        import: u32,
    },
    /// This is the first module of which an index names nothing, or that has two memories, two tables, or two exports
    /// of one name.
    NotClosed {
        /// The number of the module.
        module: u32,
    },
    /// This is the first library with a start function.
    Start {
        /// The number of the library.
        module: u32,
    },
    /// This is the first import that doesn't bind: no earlier library of the name has an export of the name.
    Unknown {
        /// The number of the module that imports it.
        module: u32,
        /// Its place among the module's imports.
        import: u32,
    },
    /// This is the first import that doesn't bind: the export isn't what the import wants.
    Mismatch {
        /// The number of the module that imports it.
        module: u32,
        /// Its place among the module's imports.
        import: u32,
    },
    /// This is the first module that defines a memory or a table where an earlier one does.
    Second {
        /// The number of the module.
        module: u32,
        /// Which of them.
        single: Single,
    },
    /// There was no room for what is kept.
    Memory,
}

impl From<Memory> for MatchFault {
    ghost from_gives = { λ _ e. e ≡ faults.Memory };

    fn from(_: Memory) -> Self {
        MatchFault::Memory
    }
}

impl<T: Drop> From<AllocFailed<T>> for MatchFault {
    ghost from_gives = { λ _ e. e ≡ faults.Memory };

    fn from(_: AllocFailed<T>) -> Self {
        MatchFault::Memory
    }
}

impl fmt::Display for MatchFault {
    ghost output = { λ fault. Some (fault_line fault) };

    fn fmt<W: fmt::Write>(&self, f: &mut fmt::Formatter<W>) -> fmt::Result {
        match self {
            MatchFault::SameName { module } => write!(f, "same name {module}"),
            MatchFault::GlobalImport { module, import } => {
                write!(f, "global import {import} of module {module}")
            }
            MatchFault::NotClosed { module } => write!(f, "module {module} is not closed"),
            MatchFault::Start { module } => write!(f, "start in module {module}"),
            MatchFault::Unknown { module, import } => {
                write!(f, "unknown import {import} of module {module}")
            }
            MatchFault::Mismatch { module, import } => {
                write!(f, "mismatched import {import} of module {module}")
            }
            MatchFault::Second { module, single } => {
                write!(f, "second {single} in module {module}")
            }
            MatchFault::Memory => write!(f, "out of memory"),
        }
    }
}

impl std::error::Error for MatchFault {}
