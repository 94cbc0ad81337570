use hex::FromHexError;
use mc_nbt::Memory;
use std::alloc::{AllocError, AllocFailed};
use std::io;

/// Why a program ended before its table did.
#[derive(Clone, Copy, Debug, PartialEq, Eq)]
pub enum Stop {
    /// A line is not of the form of its table.
    Line,
    /// A file was not read, or the output failed.
    System,
    /// There was no memory.
    Memory,
}

impl From<io::Error> for Stop {
    fn from(_: io::Error) -> Self {
        Stop::System
    }
}

impl From<FromHexError> for Stop {
    fn from(error: FromHexError) -> Self {
        match error {
            FromHexError::OutOfMemory => Stop::Memory,
            _ => Stop::Line,
        }
    }
}

impl From<Memory> for Stop {
    fn from(_: Memory) -> Self {
        Stop::Memory
    }
}

impl From<AllocError> for Stop {
    fn from(_: AllocError) -> Self {
        Stop::Memory
    }
}

impl<T: Drop> From<AllocFailed<T>> for Stop {
    fn from(_: AllocFailed<T>) -> Self {
        Stop::Memory
    }
}
