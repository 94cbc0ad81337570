ghost use Rattle.std.specs.Prelude.{◌≡◌};
ghost use Rattle.pk_files.specs.declared.fault.GetFault.TheVariants as get;
ghost use Rattle.pk_files.specs.declared.fault.PutFault.TheVariants as put;

use crate::PACK_CAP;
use mc_nbt::{Memory, Text};
use std::alloc::AllocError;
use std::fmt;

/// Why a pack wasn't written.
#[derive(Debug, Drop)]
pub enum PutFault {
    /// The folder shows names; this is the first of them.
    NotEmpty { name: Text },
    /// The listing of this folder failed.
    ListFailed { path: Text },
    /// The write of this file failed.
    Failed { path: Text },
    /// There was no memory.
    Memory,
}

/// Why no pack was read.
#[derive(Debug, Drop)]
pub enum GetFault {
    /// The listing of this folder failed.
    ListFailed { path: Text },
    /// The read of this file failed.
    Failed { path: Text },
    /// This file has more than 16,777,216 bytes.
    TooLong { path: Text },
    /// `pack.mcmeta` isn't there, or isn't of its form.
    NoMeta,
    /// `dpwasm.json` isn't there, or isn't of its form.
    BadIndex,
    /// The tag of this name, `load` or `tick`, isn't there, or isn't of its form.
    BadTag { name: Text },
    /// So many function files are there: more than 1,000,000.
    TooMany { found: u64 },
    /// The line of this number of this function is the first that is no line of the grammar. Lines count from 1.
    BadLine { name: Text, line: u64 },
    /// There was no memory.
    Memory,
}

impl fmt::Display for PutFault {
    fn fmt<W: fmt::Write>(&self, f: &mut fmt::Formatter<W>) -> fmt::Result {
        match self {
            PutFault::NotEmpty { name } => write!(f, "folder not empty: {name}"),
            PutFault::ListFailed { path } => write!(f, "cannot list {path}"),
            PutFault::Failed { path } => write!(f, "cannot write {path}"),
            PutFault::Memory => f.write_str("out of memory"),
        }
    }
}

impl fmt::Display for GetFault {
    fn fmt<W: fmt::Write>(&self, f: &mut fmt::Formatter<W>) -> fmt::Result {
        match self {
            GetFault::ListFailed { path } => write!(f, "cannot list {path}"),
            GetFault::Failed { path } => write!(f, "cannot read {path}"),
            GetFault::TooLong { path } => write!(f, "{path} is longer than {PACK_CAP} bytes"),
            GetFault::NoMeta => f.write_str("no pack.mcmeta"),
            GetFault::BadIndex => f.write_str("bad index"),
            GetFault::BadTag { name } => write!(f, "bad tag {name}"),
            GetFault::TooMany { found } => write!(f, "too many files: {found}"),
            GetFault::BadLine { name, line } => write!(f, "bad line {name}:{line}"),
            GetFault::Memory => f.write_str("out of memory"),
        }
    }
}

impl std::error::Error for PutFault {}

impl std::error::Error for GetFault {}

impl From<Memory> for PutFault {
    ghost from_gives = { λ _ fault. fault ≡ put.Memory };

    fn from(_: Memory) -> Self {
        PutFault::Memory
    }
}

impl From<AllocError> for PutFault {
    ghost from_gives = { λ _ fault. fault ≡ put.Memory };

    fn from(_: AllocError) -> Self {
        PutFault::Memory
    }
}

impl From<Memory> for GetFault {
    ghost from_gives = { λ _ fault. fault ≡ get.Memory };

    fn from(_: Memory) -> Self {
        GetFault::Memory
    }
}

impl From<AllocError> for GetFault {
    ghost from_gives = { λ _ fault. fault ≡ get.Memory };

    fn from(_: AllocError) -> Self {
        GetFault::Memory
    }
}
