ghost use Rattle.std.specs.Prelude.{◌≡◌, Some};
ghost use Rattle.mc_nbt.specs.ReadView.{fault_text};
ghost use Rattle.mc_nbt.specs.declared.fault.SnbtFault.TheVariants as faults;

use crate::Memory;
use std::fmt;

/// Why a text was not read as a tree.
#[derive(Debug, Clone, Copy, PartialEq, Eq)]
pub enum SnbtFault {
    /// The text spells no tree.
    Syntax {
        /// How many bytes its longest beginning has that begins the spelling of a tree.
        at: u64,
    },
    /// The text spells a tree that is more than 64 levels deep.
    Depth,
    /// There was no room for the tree.
    Memory,
}

impl fmt::Display for SnbtFault {
    ghost output = { λ f. Some (fault_text f) };

    fn fmt<W: fmt::Write>(&self, f: &mut fmt::Formatter<W>) -> fmt::Result {
        match self {
            SnbtFault::Syntax { at } => write!(f, "no tree: stops at byte {at}"),
            SnbtFault::Depth => f.write_str("deeper than 64"),
            SnbtFault::Memory => f.write_str("out of memory"),
        }
    }
}

impl std::error::Error for SnbtFault {}

impl From<Memory> for SnbtFault {
    ghost from_gives = { λ _ e. e ≡ faults.Memory };

    fn from(_: Memory) -> Self {
        SnbtFault::Memory
    }
}
