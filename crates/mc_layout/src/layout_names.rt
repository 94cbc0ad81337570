ghost use Rattle.std.specs.Prelude.{◌≡◌, IfOk, codes, true};
ghost use Rattle.mc_nbt.specs.View.{parts};
ghost use Rattle.mc_cmd.specs.Layout.{full_name, io_of, memory_of, rest_of};
ghost use Rattle.mc_cmd.specs.Packing.{is_pack_namespace};
ghost use Rattle.mc_layout.specs.Paths.{at_key};

use crate::names::{full_name, to_key};
use mc_nbt::{Memory, Path, Text};
use std::alloc::Global;

/// The names and paths of the public layout in the pack of a namespace.
#[derive(Drop)]
pub struct LayoutNames {
    /// The namespace of the pack, and the objective of its scores.
    pub ns: Text,
    /// The full name of the function that loading runs.
    pub load: Text,
    /// The full name of the function that a tick runs.
    pub tick: Text,
    /// The storage in which the pack answers.
    pub io: Text,
    /// The storage of its memory and its globals.
    pub memory: Text,
    /// The storage of all else that it keeps.
    pub rest: Text,
    /// The path to the number of the state, in the storage `io`.
    pub state: Path,
    /// The path to the ints of the result, in the storage `io`.
    pub result: Path,
    /// The path to the number of the trap, in the storage `io`.
    pub trap: Path,
    /// The path to the globals, in the storage `memory`.
    pub globals: Path,
    /// The path to the pages of the memory, in the storage `memory`.
    pub pages: Path,
    ghost namespace_is: { is_pack_namespace ns ≡ true },
    ghost load_is: { load ≡ full_name ns (codes "load") },
    ghost tick_is: { tick ≡ full_name ns (codes "tick") },
    ghost io_is: { io ≡ io_of ns },
    ghost memory_is: { memory ≡ memory_of ns },
    ghost rest_is: { rest ≡ rest_of ns },
    ghost state_is: { parts state ≡ at_key (codes "state") },
    ghost result_is: { parts result ≡ at_key (codes "result") },
    ghost trap_is: { parts trap ≡ at_key (codes "trap") },
    ghost globals_is: { parts globals ≡ at_key (codes "g") },
    ghost pages_is: { parts pages ≡ at_key (codes "mem") },
}

impl LayoutNames {
    /// The names and paths in the pack of a namespace.
    ///
    /// # Errors
    ///
    /// `Memory` where there is no room for them.
    #[tactic(auto, unfolding(mc_nbt::specs::Word::is_key))]
    pub fn new(alloc: Global, ns: &Text) -> Result<LayoutNames, Memory>
        requires { is_pack_namespace ns.now ≡ true }
        ensures { IfOk result (λ names. names.ns ≡ ns.now) }
    {
        Ok(LayoutNames {
            ns: ns.clone()?,
            load: full_name(alloc, ns, "load")?,
            tick: full_name(alloc, ns, "tick")?,
            io: full_name(alloc, ns, "io")?,
            memory: full_name(alloc, ns, "m")?,
            rest: full_name(alloc, ns, "c")?,
            state: to_key(alloc, "state")?,
            result: to_key(alloc, "result")?,
            trap: to_key(alloc, "trap")?,
            globals: to_key(alloc, "g")?,
            pages: to_key(alloc, "mem")?,
        })
    }
}
