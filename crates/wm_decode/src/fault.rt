ghost use Rattle.std.specs.Prelude.{◌≡◌};
ghost use Rattle.wm_decode.specs.declared.fault.Fault.TheVariants.{Memory};

use std::alloc::AllocFailed;

/// Why a part of a section was not read.
#[derive(Clone, Copy, Debug, PartialEq, Eq)]
pub(crate) enum Fault {
    /// There was no room for it.
    Memory,
    /// The bytes begin with no spelling of it.
    Malformed,
}

impl<T: Drop> From<AllocFailed<T>> for Fault {
    ghost from_gives = { λ _ e. e ≡ Memory };

    fn from(_: AllocFailed<T>) -> Fault {
        Fault::Memory
    }
}

impl From<mc_nbt::Memory> for Fault {
    ghost from_gives = { λ _ e. e ≡ Memory };

    fn from(_: mc_nbt::Memory) -> Fault {
        Fault::Memory
    }
}
