use mc_nbt::Memory;
use mc_parse::ParseFault;
use std::alloc::{AllocError, AllocFailed};
use std::fmt;

/// Why not every line was printed.
#[derive(Debug, Drop)]
pub enum Stop {
    /// The line of this number is no operation with its operands. It is 0 where the table isn't UTF-8.
    Line(u64),
    /// What is emitted for an operation is no function of a pack, or a command of the test is none.
    Pack,
    /// The table was not read.
    Unread,
    /// The output failed.
    Output,
    /// There was no memory.
    Memory,
}

impl Stop {
    /// The exit status.
    pub fn status(&self) -> u8 {
        match self {
            Stop::Line(_) | Stop::Pack => 1,
            Stop::Unread => 2,
            Stop::Output => 3,
            Stop::Memory => 4,
        }
    }
}

impl fmt::Display for Stop {
    fn fmt<W: fmt::Write>(&self, f: &mut fmt::Formatter<W>) -> fmt::Result {
        match self {
            Stop::Line(number) => write!(f, "line {number} is no operation with its operands"),
            Stop::Pack => write!(f, "an operation is no function of a pack"),
            Stop::Unread => write!(f, "the table is not read"),
            Stop::Output => write!(f, "the output failed"),
            Stop::Memory => write!(f, "out of memory"),
        }
    }
}

impl From<Memory> for Stop {
    fn from(_: Memory) -> Self {
        Stop::Memory
    }
}

impl From<ParseFault> for Stop {
    fn from(fault: ParseFault) -> Self {
        match fault {
            ParseFault::Memory => Stop::Memory,
            ParseFault::TooLong | ParseFault::NotInGrammar => Stop::Pack,
        }
    }
}

impl From<AllocError> for Stop {
    fn from(_: AllocError) -> Self {
        Stop::Memory
    }
}

impl<T: Drop> From<AllocFailed<T>> for Stop {
    fn from(_: AllocFailed<T>) -> Self {
        Stop::Memory
    }
}
