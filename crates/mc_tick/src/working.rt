ghost use Rattle.std.specs.Prelude.{◌≡◌};
ghost use Rattle.mc_tick.specs.State.{IsRunning};
ghost use Rattle.mc_tick.specs.PlayView.{play_state};

use crate::play::Play;

/// A pack that works: its state is 1. Events happen to it as a [`Resumed::Working`](crate::Resumed::Working).
///
/// Contracts see it as the state that `working_state` gives.
#[derive(Drop)]
pub struct Working {
    pub(crate) play: Play,
    ghost works: { IsRunning (play_state play) },
}

impl Working {
    ghost use Rattle.mc_tick.specs.StateView.{working_state};

    /// Where the play stands.
    pub fn play(&self) -> &Play
        ensures { play_state result.now ≡ working_state self.now }
    {
        &self.play
    }
}
