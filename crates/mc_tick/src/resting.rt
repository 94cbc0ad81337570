ghost use Rattle.std.specs.Prelude.{◌≡◌};
ghost use Rattle.mc_tick.specs.State.{IsRunning};
ghost use Rattle.mc_tick.specs.PlayView.{play_state};

use crate::play::{Cause, Play};
use crate::{Resumed, StartRefusal};
use mc_nbt::Value;

/// A pack that rests: its state isn't 1, and a call may start. The other events happen to it as a
/// [`Resumed::Resting`].
///
/// Contracts see it as the state that `resting_state` gives.
#[derive(Drop)]
pub struct Resting {
    pub(crate) play: Play,
    ghost rests: { ¬ IsRunning (play_state play) },
}

impl Resting {
    ghost use Rattle.mc_tick.specs.Answers.{IsStarted};
    ghost use Rattle.mc_tick.specs.StateView.{resting_state};

    /// Calls the export at a place: sets the arguments, and runs the function of the call with the quota `BMIN`.
    ///
    /// # Errors
    ///
    /// `NoExport` exactly where there is no export at this place, else `WrongArgs` exactly where the number or the
    /// kinds of the arguments differ from its parameters', else `Dead` exactly where the pack's state is 4, each with
    /// the state as it was; else `Memory` where there is no room for what the call writes.
    pub fn call(self, export: usize, args: &[Value]) -> Result<Resumed, StartRefusal>
        ensures { IsStarted (resting_state self) export args.now result }
    {
        match self.play.cause(export, args) {
            Some(Cause::NoExport) => Err(StartRefusal::NoExport { state: self }),
            Some(Cause::WrongArgs) => Err(StartRefusal::WrongArgs { state: self }),
            Some(Cause::Dead) => Err(StartRefusal::Dead { state: self }),
            None => {
                let mut play = self.play;
                play.call(export, args)?;
                Ok(Resumed::of(play))
            }
        }
    }

    /// Where the play stands.
    pub fn play(&self) -> &Play
        ensures { play_state result.now ≡ resting_state self.now }
    {
        &self.play
    }
}
