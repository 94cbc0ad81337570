ghost use Rattle.std.specs.Prelude.{◌≡◌, Some};
ghost use Rattle.wm_valid.specs.ValidFault.{fault_line};
ghost use Rattle.wm_valid.specs.declared.valid_fault.ValidFault.TheVariants as faults;

use mc_nbt::Memory;
use std::alloc::AllocFailed;
use std::fmt;
use wm_ast::Item;

/// Why a module was not validated.
#[derive(Clone, Copy, Debug, PartialEq, Eq)]
pub enum ValidFault {
    /// This is the first item that isn't valid (3.2, 3.4), in the order types, functions, tables, memories, globals,
    /// elements, datas, start, exports.
    Item {
        /// Its kind.
        item: Item,
        /// Its index among the items of its kind, counted from 0.
        index: u64,
    },
    /// All items are valid, and this is the first function without a typing (3.3, 3.4.1).
    Body {
        /// The index of the function.
        func: u64,
    },
    /// The module is valid, and this is the first function of which a reached instruction stands over more than
    /// `MAX_HEIGHT` operands.
    Height {
        /// The index of the function.
        func: u64,
        /// The greatest number of operands over which one of its reached instructions stands.
        found: u64,
    },
    /// There was no room for what the validation keeps.
    Memory,
}

impl fmt::Display for ValidFault {
    ghost output = { λ f. Some (fault_line f) };

    fn fmt<W: fmt::Write>(&self, f: &mut fmt::Formatter<W>) -> fmt::Result {
        match self {
            ValidFault::Item { item, index } => write!(f, "invalid {item} {index}"),
            ValidFault::Body { func } => write!(f, "invalid body {func}"),
            ValidFault::Height { func, found } => write!(f, "height {found} in function {func}"),
            ValidFault::Memory => f.write_str("out of memory"),
        }
    }
}

impl std::error::Error for ValidFault {}

impl From<Memory> for ValidFault {
    ghost from_gives = { λ _ e. e ≡ faults.Memory };

    fn from(_: Memory) -> Self {
        ValidFault::Memory
    }
}

impl<T: Drop> From<AllocFailed<T>> for ValidFault {
    ghost from_gives = { λ _ e. e ≡ faults.Memory };

    fn from(_: AllocFailed<T>) -> Self {
        ValidFault::Memory
    }
}
