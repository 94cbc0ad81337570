use mc_nbt::{Memory, Text};
use std::alloc::{AllocError, AllocFailed};
use std::fmt;

/// Why not every file was run or read.
#[derive(Debug, Drop)]
pub enum Stop {
    /// The file at this path is no row, and this is the first line for which it is none.
    NoRow(Text, u64),
    /// The file at this path is a row, and should not be one.
    IsRow(Text),
    /// The file or folder at this path was not read.
    Unread(Text),
    /// The output failed.
    Output,
    /// There was no memory.
    Memory,
}

impl Stop {
    /// The exit status.
    pub fn status(&self) -> u8 {
        match self {
            Stop::NoRow(..) | Stop::IsRow(_) => 1,
            Stop::Unread(_) => 2,
            Stop::Output => 3,
            Stop::Memory => 4,
        }
    }
}

impl fmt::Display for Stop {
    fn fmt<W: fmt::Write>(&self, f: &mut fmt::Formatter<W>) -> fmt::Result {
        match self {
            Stop::NoRow(path, line) => write!(f, "{path}: line {line} is not of the format"),
            Stop::IsRow(path) => write!(f, "{path}: is of the format"),
            Stop::Unread(path) => write!(f, "{path}: not read"),
            Stop::Output => write!(f, "the output failed"),
            Stop::Memory => write!(f, "out of memory"),
        }
    }
}

impl From<Memory> for Stop {
    fn from(_: Memory) -> Self {
        Stop::Memory
    }
}

impl From<AllocError> for Stop {
    fn from(_: AllocError) -> Self {
        Stop::Memory
    }
}

impl<T: Drop> From<AllocFailed<T>> for Stop {
    fn from(_: AllocFailed<T>) -> Self {
        Stop::Memory
    }
}
