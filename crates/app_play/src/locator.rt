//! Who tells where a program is.

ghost use Rattle.std.specs.Prelude.{◌≡◌, IfOk, [], true};
ghost use Rattle.mc_cmd.specs.Form as form;
ghost use Rattle.mc_cmd.specs.Packing.{is_pack_namespace};
ghost use Rattle.mc_cmd.specs.World as spec;
ghost use Rattle.mc_world.specs.WorldView.{seen};

use mc_nbt::{Memory, Text};
use mc_world::World;
use std::alloc::Global;

/// Tells where the program of a pack is, for a script that asks.
pub trait Locator {
    /// Which texts it may tell of the pack of a namespace in a world.
    ghost may_tell: { Self → form.Text → spec.World → form.Text → Type 0 };

    /// What is printed of where the program is of the pack of a namespace in a world.
    ///
    /// # Errors
    ///
    /// `Memory` where there was no memory.
    fn locate(&self, alloc: Global, world: &World, ns: &Text) -> Result<Text, Memory>
        requires { is_pack_namespace ns.now ≡ true }
        ensures { IfOk result (λ t. may_tell self.now ns.now (seen world.now) t) };
}

/// Tells nothing.
#[derive(Clone, Copy)]
pub(crate) struct Silent;

impl Locator for Silent {
    ghost may_tell = { λ self ns w t. t ≡ [] };

    fn locate(&self, alloc: Global, _world: &World, _ns: &Text) -> Result<Text, Memory> {
        Text::new(alloc, "")
    }
}
