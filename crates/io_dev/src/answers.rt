ghost use Rattle.std.specs.Prelude.{◌≡◌};
ghost use Rattle.io_dev.specs.declared.answers.ReadAnswer.TheVariants as read;
ghost use Rattle.io_dev.specs.declared.answers.NamesAnswer.TheVariants as names;
ghost use Rattle.io_dev.specs.declared.answers.WriteAnswer.TheVariants as write;

use mc_nbt::Memory;
use std::alloc::AllocError;
use thiserror::Error;

/// Why a read gave nothing.
#[derive(Clone, Copy, Debug, PartialEq, Eq, Error)]
pub enum ReadAnswer {
    /// The device failed, or there is no such file.
    #[error("the file was not read")]
    Failed,
    /// The file has more bytes than were asked for.
    #[error("the file is too long")]
    TooLong,
    /// There was no memory.
    #[error("out of memory")]
    Memory,
}

/// Why a listing gave nothing.
#[derive(Clone, Copy, Debug, PartialEq, Eq, Error)]
pub enum NamesAnswer {
    /// The device failed.
    #[error("the folder was not listed")]
    Failed,
    /// There was no memory.
    #[error("out of memory")]
    Memory,
}

/// Why a write was not done.
#[derive(Clone, Copy, Debug, PartialEq, Eq, Error)]
pub enum WriteAnswer {
    /// The device failed.
    #[error("the bytes were not written")]
    Failed,
    /// There was no memory.
    #[error("out of memory")]
    Memory,
}

impl From<Memory> for ReadAnswer {
    ghost from_gives = { λ _ answer. answer ≡ read.Memory };

    fn from(_: Memory) -> Self {
        ReadAnswer::Memory
    }
}

impl From<Memory> for NamesAnswer {
    ghost from_gives = { λ _ answer. answer ≡ names.Memory };

    fn from(_: Memory) -> Self {
        NamesAnswer::Memory
    }
}

impl From<Memory> for WriteAnswer {
    ghost from_gives = { λ _ answer. answer ≡ write.Memory };

    fn from(_: Memory) -> Self {
        WriteAnswer::Memory
    }
}

impl From<AllocError> for ReadAnswer {
    ghost from_gives = { λ _ answer. answer ≡ read.Memory };

    fn from(_: AllocError) -> Self {
        ReadAnswer::Memory
    }
}

impl From<AllocError> for NamesAnswer {
    ghost from_gives = { λ _ answer. answer ≡ names.Memory };

    fn from(_: AllocError) -> Self {
        NamesAnswer::Memory
    }
}

impl From<AllocError> for WriteAnswer {
    ghost from_gives = { λ _ answer. answer ≡ write.Memory };

    fn from(_: AllocError) -> Self {
        WriteAnswer::Memory
    }
}
