ghost use Rattle.std.specs.Prelude.{◌≡◌, IfOk};
ghost use Rattle.cc_line.specs.Sight.{in_io, in_memory, in_rest, store_id};
ghost use Rattle.cc_line.specs.View.{store_view};

use cc_line::Store;
use mc_layout::full_name;
use mc_nbt::{Memory, Text};
use std::alloc::Global;

/// The names under which the pack of a namespace keeps what its states have. The namespace may be any text.
#[derive(Drop)]
pub struct PackNames {
    /// The namespace of the pack, and the objective of its scores.
    pub ns: Text,
    /// The storage in which the pack answers.
    pub io: Text,
    /// The storage of its memory and its globals.
    pub memory: Text,
    /// The storage of all else that it keeps.
    pub rest: Text,
    ghost io_is: { io ≡ store_id ns in_io },
    ghost memory_is: { memory ≡ store_id ns in_memory },
    ghost rest_is: { rest ≡ store_id ns in_rest },
}

impl PackNames {
    /// The names in the pack of a namespace.
    ///
    /// # Errors
    ///
    /// `Memory` where there is no room for them.
    pub fn new(alloc: Global, ns: &Text) -> Result<PackNames, Memory>
        ensures { IfOk result (λ names. names.ns ≡ ns.now) }
    {
        Ok(PackNames {
            ns: ns.clone()?,
            io: full_name(alloc, ns, "io")?,
            memory: full_name(alloc, ns, "m")?,
            rest: full_name(alloc, ns, "c")?,
        })
    }

    /// The name of one of the storages.
    pub fn storage(&self, store: Store) -> &Text
        ensures { result.now ≡ store_id self.now.ns (store_view store) }
    {
        match store {
            Store::Io => &self.io,
            Store::Memory => &self.memory,
            Store::Rest => &self.rest,
        }
    }
}
