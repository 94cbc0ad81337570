ghost use Rattle.std.specs.Prelude.{◌≡◌, ◌∷◌, [], IfOk};
ghost use Rattle.mc_cmd.specs.Packing.{Written, pack_view};
ghost use Rattle.mc_engine.specs.EngineView.{shown};
ghost use Rattle.mc_tick.specs.State.{booted};
ghost use Rattle.mc_tick.specs.Fresh.{IsFresh};
ghost use Rattle.mc_tick.specs.steps.Untouched.{IsUntouched};

use crate::Resumed;
use crate::play::Play;
use mc_engine::Engine;
use mc_nbt::Memory;
use std::alloc::Global;

/// An engine whose one pack isn't loaded yet.
///
/// Contracts see it as its pack, by `loaded_pack`.
#[derive(Drop)]
pub struct Loaded {
    alloc: Global,
    engine: Engine,
    ghost untouched: { IsUntouched (shown engine) },
}

impl Loaded {
    ghost use Rattle.mc_tick.specs.StateView.{IsResumed, loaded_pack};

    /// The engine of one pack, over the world before any command, of which no chain answered `Memory`. It takes no
    /// memory.
    pub fn new(alloc: Global, engine: Engine) -> Loaded
        requires { IsFresh (shown engine) }
        ensures { (p : Written) → (shown engine).packs ≡ p ∷ [] → loaded_pack result ≡ pack_view p }
    {
        Loaded { alloc, engine }
    }

    /// Runs the load function with the quota 65,536.
    ///
    /// # Errors
    ///
    /// `Memory` where there is no room for what the pack writes.
    pub fn boot(self) -> Result<Resumed, Memory>
        ensures { IfOk result (IsResumed (booted (loaded_pack self))) }
    {
        let Loaded { alloc, engine } = self;
        let play = Play::boot(alloc, engine)?;
        Ok(Resumed::of(play))
    }
}
