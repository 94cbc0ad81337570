ghost use Rattle.std.specs.Prelude.{◌≡◌};
ghost use Rattle.wm_valid.specs.declared.fault.Fault.TheVariants as faults;

use mc_nbt::Memory;
use std::alloc::AllocFailed;

/// Why a part of a body was not typed.
#[derive(Clone, Copy, Debug, PartialEq, Eq)]
pub(crate) enum Fault {
    /// It has no typing.
    Untyped,
    /// There was no room for its operands.
    Memory,
}

impl<T: Drop> From<AllocFailed<T>> for Fault {
    ghost from_gives = { λ _ e. e ≡ faults.Memory };

    fn from(_: AllocFailed<T>) -> Fault {
        Fault::Memory
    }
}

impl From<Memory> for Fault {
    ghost from_gives = { λ _ e. e ≡ faults.Memory };

    fn from(_: Memory) -> Fault {
        Fault::Memory
    }
}
