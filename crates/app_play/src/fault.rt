//! Why the play of a script stops.

ghost use Rattle.std.specs.Prelude.{◌≡◌};
ghost use Rattle.app_play.specs.declared.fault.PlayFault.TheVariants as faults;

use mc_nbt::{Memory, Text};

/// Why a line of a script is refused when its turn comes.
#[derive(Debug, PartialEq, Eq, Drop)]
pub enum Cause {
    /// The pack exports no function of this name.
    NoSuchExport,
    /// The arguments are more or fewer than the parameters, or one is outside the range of its parameter.
    WrongArguments,
    /// The start function trapped.
    InstanceIsDead,
    /// The command names this, which is the pack's own.
    Names(Text),
    /// No program has the namespace that the line says. This is never told of a script over one pack.
    NoSuchProgram,
}

/// Why the play of a script stopped.
#[derive(Debug, PartialEq, Eq, Drop)]
pub enum PlayFault {
    /// The sink failed.
    Output,
    /// The line of this number is refused.
    Refused { line: u64, cause: Cause },
    /// There was no memory.
    Memory,
}

impl From<Memory> for PlayFault {
    ghost from_gives = { λ _ e. e ≡ faults.Memory };

    fn from(_: Memory) -> Self {
        PlayFault::Memory
    }
}
