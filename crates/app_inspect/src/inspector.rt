//! Who tells where the program of a module is.

ghost use Rattle.std.specs.Prelude.{◌≡◌, IfOk, true};
ghost use Rattle.mc_cmd.specs.Packing.{is_pack_namespace};
ghost use Rattle.mc_world.specs.WorldView.{seen};
ghost use Rattle.wm_valid.specs.Checked.{IsTyped};
ghost use Rattle.app_inspect.specs.Tell.{IsTextOf, MayTell};

use app_play::Locator;
use app_report::{none, show, start, where_text};
use mc_inspect::{InspectFault, inspect};
use mc_nbt::{Memory, Text};
use mc_world::World;
use std::alloc::Global;
use wm_valid::Typed;
use wm_view::Inspection;

/// Tells where the program of a module is.
#[derive(Drop)]
pub struct Inspector<'a> {
    typed: &'a Typed,
}

impl<'a> Inspector<'a> {
    /// One that tells of this module.
    pub fn new(typed: &'a Typed) -> Inspector<'a>
        ensures of { result.typed.now ≡ typed.now }
        ensures typed { IsTyped typed.now }
    {
        let _ = typed.module();
        Inspector { typed }
    }
}

// What is printed of an answer.
fn text_of(
    alloc: Global,
    world: &World,
    ns: &Text,
    answer: &Result<Inspection, InspectFault>,
) -> Result<Text, Memory>
    requires { is_pack_namespace ns.now ≡ true }
    ensures { IfOk result (λ t. IsTextOf ns.now (seen world.now) answer.now t) }
{
    match answer {
        Ok(shown) => where_text(alloc, shown),
        Err(InspectFault::NotRunning) => show(alloc, world, ns),
        Err(InspectFault::Starting) => start(alloc),
        Err(InspectFault::NoPlace { .. }) => none(alloc),
        Err(InspectFault::Memory) => Err(Memory),
    }
}

impl<'a> Locator for Inspector<'a> {
    ghost may_tell = { λ self ns w t. MayTell self.typed.now ns w t };

    /// The lines of what the program shows: its frames, the next instruction, and what is left. `start` while it is
    /// being instantiated, the line of its answer where it doesn't run, and `none` where the world tells no place of it.
    fn locate(&self, alloc: Global, world: &World, ns: &Text) -> Result<Text, Memory> {
        let answer = inspect(alloc, self.typed, world, ns);
        text_of(alloc, world, ns, &answer)
    }
}
