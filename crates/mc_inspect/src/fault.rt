// Why nothing is seen of a program.
ghost use Rattle.std.specs.Prelude.{◌≡◌};
ghost use Rattle.mc_inspect.specs.declared.fault.InspectFault.TheVariants as faults;

use mc_nbt::Memory;

/// Why nothing is seen of a program. The first of these that holds is told; want of memory may be told in place of any.
#[derive(Debug, Clone, Copy, PartialEq, Eq)]
pub enum InspectFault {
    /// The pack's state isn't that of a job that runs.
    NotRunning,
    /// The module is being instantiated.
    Starting,
    /// The world stands for no configuration of a program that runs.
    NoPlace {
        /// The number of the piece that is next, in its name; none where no piece is.
        piece: Option<u64>,
    },
    /// There was no memory.
    Memory,
}

impl From<Memory> for InspectFault {
    ghost from_gives = { λ _ e. e ≡ faults.Memory };

    fn from(_: Memory) -> Self {
        InspectFault::Memory
    }
}
