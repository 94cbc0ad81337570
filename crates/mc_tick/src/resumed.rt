ghost use Rattle.std.specs.Prelude.{◌≡◌, ◌↔◌, IfOk, IsTrue, Some, option_map, replicate};
ghost use Rattle.mc_cmd.specs.Layout.{running};
ghost use Rattle.mc_cmd.specs.Pack as pack;
ghost use Rattle.mc_cmd.specs.Pack.{IsBudget};
ghost use Rattle.mc_cmd.specs.View.{cmd_view};
ghost use Rattle.mc_layout.specs.AnswerView.{answer_view};
ghost use Rattle.mc_tick.specs.State.{after, after_all};
ghost use Rattle.mc_tick.specs.PlayView.{play_state};

use crate::foreign::first_own;
use crate::play::Play;
use crate::{OtherRefusal, Resting, Working};
use mc_cmd::{Cmd, is_foreign};
use mc_layout::Answer;
use mc_nbt::Memory;

/// A pack after an event: it works exactly where its state is 1.
///
/// Contracts see it as the state that `state_of` gives.
#[derive(Drop)]
pub enum Resumed {
    Resting(Resting),
    Working(Working),
}

impl Resumed {
    ghost use Rattle.mc_tick.specs.Answers.{IsApplied};
    ghost use Rattle.mc_tick.specs.StateView.{IsResumed, state_of};

    // The state in which a play stands.
    pub(crate) fn of(play: Play) -> Resumed
        ensures { IsResumed (play_state play) result }
    {
        if is_running(play.answer()) {
            Resumed::Working(Working { play })
        } else {
            Resumed::Resting(Resting { play })
        }
    }

    /// One tick with this budget.
    ///
    /// # Errors
    ///
    /// `Memory` where there is no room for what the pack writes; the state is given up.
    pub fn tick(self, budget: u32) -> Result<Resumed, Memory>
        requires { IsBudget budget }
        ensures { IfOk result (IsResumed (after (state_of self) (pack.tick budget))) }
    {
        let mut play = self.into_play();
        play.tick(budget)?;
        Ok(Resumed::of(play))
    }

    /// So many ticks with this budget, one after the other.
    ///
    /// # Errors
    ///
    /// `Memory` where there is no room for what the pack writes; the state is given up.
    pub fn tick_times(self, count: u32, budget: u32) -> Result<Resumed, Memory>
        requires { IsBudget budget }
        ensures { IfOk result (IsResumed (after_all (state_of self) (replicate count (pack.tick budget)))) }
    {
        let mut play = self.into_play();
        play.tick_times(count, budget)?;
        Ok(Resumed::of(play))
    }

    /// Loads the pack again, with this budget. It is no tick.
    ///
    /// # Errors
    ///
    /// `Memory` where there is no room for what the pack writes; the state is given up.
    pub fn reload(self, budget: u32) -> Result<Resumed, Memory>
        requires { IsBudget budget }
        ensures { IfOk result (IsResumed (after (state_of self) (pack.reload budget))) }
    {
        let mut play = self.into_play();
        play.reload(budget)?;
        Ok(Resumed::of(play))
    }

    /// Does what a command of somebody else says.
    ///
    /// # Errors
    ///
    /// `NotForeign` exactly where the command is none of `scoreboard` and `data`, else `Own` exactly where it names
    /// what is the pack's, with the first such name, each with the state as it was; else `Memory` where there is no
    /// room.
    pub fn other(self, cmd: &Cmd) -> Result<Resumed, OtherRefusal>
        ensures { IsApplied (state_of self) (cmd_view cmd.now) result }
    {
        if !is_foreign(cmd) {
            return Err(OtherRefusal::NotForeign { state: self });
        }
        if let Some(name) = first_own(cmd, self.play().names()) {
            let name = name.clone()?;
            return Err(OtherRefusal::Own { name, state: self });
        }
        let mut play = self.into_play();
        play.other(cmd)?;
        Ok(Resumed::of(play))
    }

    /// Where the play stands, whether it rests or works.
    pub fn play(&self) -> &Play
        ensures { play_state result.now ≡ state_of self.now }
    {
        match self {
            Resumed::Resting(resting) => &resting.play,
            Resumed::Working(working) => &working.play,
        }
    }

    fn into_play(self) -> Play
        ensures { play_state result ≡ state_of self }
    {
        match self {
            Resumed::Resting(resting) => resting.play,
            Resumed::Working(working) => working.play,
        }
    }
}

#[tactic(auto, using(crate::proofs::PlayLemmas::told_running))]
fn is_running(answer: Option<Answer>) -> bool
    ensures { IsTrue result ↔ (option_map answer_view answer ≡ Some running) }
{
    matches!(answer, Some(Answer::Running))
}
