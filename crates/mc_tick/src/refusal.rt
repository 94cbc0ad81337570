ghost use Rattle.std.specs.Prelude.{◌≡◌};
ghost use Rattle.mc_tick.specs.declared.refusal.StartRefusal.TheVariants as start;
ghost use Rattle.mc_tick.specs.declared.refusal.OtherRefusal.TheVariants as others;

use crate::{Resting, Resumed};
use mc_nbt::{Memory, Text};
use std::alloc::AllocError;

/// Why a call wasn't started, with the state as it was; the first cause of them in this order.
#[derive(Drop)]
pub enum StartRefusal {
    /// There is no export at this place.
    NoExport { state: Resting },
    /// The number or the kinds of the arguments differ from those of the export's parameters.
    WrongArgs { state: Resting },
    /// The start function trapped: the pack's state is 4.
    Dead { state: Resting },
    /// There is no room for what the call writes; the state is given up.
    Memory,
}

impl From<Memory> for StartRefusal {
    ghost from_gives = { λ _ r. r ≡ start.Memory };

    fn from(_: Memory) -> Self {
        StartRefusal::Memory
    }
}

/// Why a command of somebody else wasn't done, with the state as it was; the first cause of them in this order.
#[derive(Drop)]
pub enum OtherRefusal {
    /// The command is none of `scoreboard` and `data`.
    NotForeign { state: Resumed },
    /// The first name in it that is the pack's: its objective, or one of its three storages.
    Own { name: Text, state: Resumed },
    /// There is no room for what the command writes, or to tell the name; the state is given up.
    Memory,
}

impl From<Memory> for OtherRefusal {
    ghost from_gives = { λ _ r. r ≡ others.Memory };

    fn from(_: Memory) -> Self {
        OtherRefusal::Memory
    }
}

impl From<AllocError> for OtherRefusal {
    ghost from_gives = { λ _ r. r ≡ others.Memory };

    fn from(_: AllocError) -> Self {
        OtherRefusal::Memory
    }
}
