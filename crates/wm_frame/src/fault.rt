ghost use Rattle.std.specs.Prelude.{◌≡◌, Some};
ghost use Rattle.wm_frame.specs.Line.{fault_line};
ghost use Rattle.wm_frame.specs.declared.fault.FrameFault.TheVariants as faults;

use std::alloc::AllocFailed;
use std::fmt;

/// Why bytes were not divided into sections.
#[derive(Clone, Copy, Debug, PartialEq, Eq)]
pub enum FrameFault {
    /// The first 8 bytes aren't the header of a module of version 1 (5.5.15).
    NotWasm,
    /// After the header and whole sections there are bytes that begin with no section (5.5.2).
    BadFrame {
        /// The index of the first of these bytes.
        at: u64,
    },
    /// The sections aren't in order (5.5.15).
    BadOrder {
        /// The place of the first section that isn't custom and whose id isn't above that of the last such
        /// section before it. It is counted from 0 over all sections, custom ones too.
        index: u64,
    },
    /// There was no room for the list of sections.
    Memory,
}

impl fmt::Display for FrameFault {
    ghost output = { λ f. Some (fault_line f) };

    fn fmt<W: fmt::Write>(&self, f: &mut fmt::Formatter<W>) -> fmt::Result {
        match self {
            FrameFault::NotWasm => f.write_str("not wasm"),
            FrameFault::BadFrame { at } => write!(f, "bad frame at {at}"),
            FrameFault::BadOrder { index } => write!(f, "section order at {index}"),
            FrameFault::Memory => f.write_str("out of memory"),
        }
    }
}

impl std::error::Error for FrameFault {}

impl<T: Drop> From<AllocFailed<T>> for FrameFault {
    ghost from_gives = { λ _ e. e ≡ faults.Memory };

    fn from(_: AllocFailed<T>) -> Self {
        FrameFault::Memory
    }
}
