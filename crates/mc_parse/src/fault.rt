ghost use Rattle.std.specs.Prelude.{◌≡◌, Some};
ghost use Rattle.mc_parse.specs.Parse.{fault_text};
ghost use Rattle.mc_parse.specs.declared.fault.ParseFault.TheVariants as faults;

use mc_nbt::Memory;
use std::fmt;

/// Why a text was not read as a line.
#[derive(Debug, Clone, Copy, PartialEq, Eq)]
pub enum ParseFault {
    /// The text is longer than a line may be.
    TooLong,
    /// The text says no line.
    NotInGrammar,
    /// There was no room for the line.
    Memory,
}

impl fmt::Display for ParseFault {
    ghost output = { λ f. Some (fault_text f) };

    fn fmt<W: fmt::Write>(&self, f: &mut fmt::Formatter<W>) -> fmt::Result {
        match self {
            ParseFault::TooLong => f.write_str("line too long"),
            ParseFault::NotInGrammar => f.write_str("not in the grammar"),
            ParseFault::Memory => f.write_str("out of memory"),
        }
    }
}

impl std::error::Error for ParseFault {}

impl From<Memory> for ParseFault {
    ghost from_gives = { λ _ e. e ≡ faults.Memory };

    fn from(_: Memory) -> Self {
        ParseFault::Memory
    }
}
