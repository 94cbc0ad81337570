ghost use Rattle.std.specs.Prelude.{◌≡◌};
ghost use Rattle.pk_multi.specs.declared.fault.MultiFault.TheVariants as faults;
ghost use Rattle.pk_multi.specs.declared.fault.ShareRefusal.TheVariants as refusals;
ghost use Rattle.pk_multi.specs.declared.fault.SharedOther.TheVariants as others;

use mc_nbt::{Memory, Text};
use std::alloc::{AllocError, AllocFailed};

/// Why packs may not live together; the first cause of them in this order.
#[derive(Debug, Drop)]
pub enum MultiFault {
    /// The pack at this place has the namespace of one before it.
    SameSpace {
        index: usize,
    },
    /// In the pack at this place the function of this name has a line that isn't tidy: the one of this number, from 1.
    Untidy {
        index: usize,
        name: Text,
        line: usize,
    },
    /// There is no room for what the lines say.
    Memory,
}

impl From<Memory> for MultiFault {
    ghost from_gives = { λ _ f. f ≡ faults.Memory };

    fn from(_: Memory) -> Self {
        MultiFault::Memory
    }
}

impl From<AllocError> for MultiFault {
    ghost from_gives = { λ _ f. f ≡ faults.Memory };

    fn from(_: AllocError) -> Self {
        MultiFault::Memory
    }
}

impl<T: Drop> From<AllocFailed<T>> for MultiFault {
    ghost from_gives = { λ _ f. f ≡ faults.Memory };

    fn from(_: AllocFailed<T>) -> Self {
        MultiFault::Memory
    }
}

/// Why a call wasn't started; the first cause of them in this order. But for `Memory` nothing is changed.
#[derive(Clone, Copy, Debug, PartialEq, Eq)]
pub enum ShareRefusal {
    /// There is no program at this place.
    NoProgram,
    /// The program has no export at this place.
    NoExport,
    /// The number or the kinds of the arguments differ from those of the export's parameters.
    WrongArgs,
    /// The program runs: its state is 1.
    Busy,
    /// Its start function trapped: its state is 4.
    Dead,
    /// There is no room for what the call writes.
    Memory,
}

impl From<Memory> for ShareRefusal {
    ghost from_gives = { λ _ r. r ≡ refusals.Memory };

    fn from(_: Memory) -> Self {
        ShareRefusal::Memory
    }
}

/// Why a command of somebody else wasn't done; the first cause of them in this order. But for `Memory` nothing is
/// changed.
#[derive(Debug, Drop)]
pub enum SharedOther {
    /// The command is none of `scoreboard` and `data`.
    NotForeign,
    /// The first name in it that is any program's: its objective, or one of its three storages.
    Own { name: Text },
    /// There is no room for what the command writes, or to tell the name.
    Memory,
}

impl From<Memory> for SharedOther {
    ghost from_gives = { λ _ r. r ≡ others.Memory };

    fn from(_: Memory) -> Self {
        SharedOther::Memory
    }
}
