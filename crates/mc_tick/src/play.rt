//! Where the play of a pack stands, and what events do to it.

ghost use Rattle.std.specs.Prelude.{◌≡◌, ◌+◌, ◌||◌, IfOk, OnOk, codes, length, not, option_map, replicate, true};
ghost use Rattle.std.specs.List.{list_all};
ghost use Rattle.mc_nbt.specs.Value.{is_value};
ghost use Rattle.mc_cmd.specs.Foreign.{is_foreign};
ghost use Rattle.mc_cmd.specs.Pack as pack;
ghost use Rattle.mc_cmd.specs.Pack.{IsBudget};
ghost use Rattle.mc_cmd.specs.Packing.{index_view};
ghost use Rattle.mc_cmd.specs.View.{cmd_view};
ghost use Rattle.mc_world.specs.WorldView.{seen};
ghost use Rattle.mc_layout.specs.AnswerView.{answer_view};
ghost use Rattle.mc_engine.specs.EngineView.{shown};
ghost use Rattle.mc_tick.specs.State.{after, after_all, answer_of, booted};
ghost use Rattle.mc_tick.specs.Packs.{as_one, first_index};
ghost use Rattle.mc_tick.specs.steps.Running.{ran};
ghost use Rattle.mc_tick.specs.steps.Untouched.{IsUntouched};

use crate::arguments::{are_of_kinds, ints_of, set_args};
use mc_cmd::{BMIN, Cmd, Index, LOAD_QUOTA};
use mc_engine::{Chained, Engine};
use mc_layout::{Answer, LayoutNames, answer, full_name, state};
use mc_nbt::{Memory, Value};
use mc_world::World;
use std::alloc::Global;

/// Where the play of a pack stands. Events happen to it by [`Resting`](crate::Resting) and
/// [`Resumed`](crate::Resumed).
///
/// Contracts see it as the state that `play_state` gives.
#[derive(Drop)]
pub struct Play {
    alloc: Global,
    /// The pack that is played, and its world.
    engine: Engine,
    /// The names of its layout.
    names: LayoutNames,
    /// The number of ticks so far.
    ticks: u128,
    /// The weight used by all chains so far.
    used: u128,
    /// Whether one of them was cut.
    cut: bool,
    ghost alone: { length (shown engine).packs ≡ 1 },
    ghost named: { names.ns ≡ (first_index (shown engine).packs).ns },
}

/// Why a call isn't started.
#[derive(Clone, Copy)]
pub(crate) enum Cause {
    NoExport,
    WrongArgs,
    Dead,
}

impl Play {
    ghost use Rattle.mc_tick.specs.PlayView.{play_state};
    ghost use Rattle.mc_tick.specs.steps.Starting.{IsCause};

    /// The play of an engine's one pack after it is loaded.
    pub(crate) fn boot(alloc: Global, engine: Engine) -> Result<Play, Memory>
        requires { IsUntouched (shown engine) }
        ensures { IfOk result (λ p. play_state p ≡ booted (as_one (shown engine).packs)) }
    {
        let names = match engine.index(0) {
            Some(index) => LayoutNames::new(alloc, &index.ns)?,
            None => unreachable!(),
        };
        let mut play = Play {
            alloc,
            engine,
            names,
            ticks: 0,
            used: 0,
            cut: false,
        };
        play.load(LOAD_QUOTA)?;
        Ok(play)
    }

    /// Why a call of the export at a place with these arguments isn't started; `None` where it may be.
    pub(crate) fn cause(&self, export: usize, args: &[Value]) -> Option<Cause>
        ensures { IsCause (play_state self.now) export args.now result }
    {
        let Some(export) = self.index().exports.as_slice().get(export) else {
            return Some(Cause::NoExport);
        };
        if !are_of_kinds(args, export.params.as_slice()) {
            Some(Cause::WrongArgs)
        } else if state(self.engine.world(), &self.names) == Some(4) {
            Some(Cause::Dead)
        } else {
            None
        }
    }

    /// Calls the export at a place.
    pub(crate) fn call(&mut self, export: usize, args: &[Value]) -> Result<(), Memory>
        ensures call { OnOk result (play_state self.new ≡ after (play_state self.old) (pack.call export args.now)) }
        ensures values { OnOk result (list_all is_value args.now ≡ true) }
    {
        let ints = ints_of(self.alloc, args)?;
        let set = set_args(self.alloc, &self.names, ints)?;
        self.engine.apply(&set)?;
        let name = format!(in self.alloc; "c{export}")?;
        let start = full_name(self.alloc, &self.names.ns, name.as_str())?;
        let chained = self.engine.chain(&start, BMIN)?;
        self.count(chained, 0);
        Ok(())
    }

    /// One tick with this budget.
    pub(crate) fn tick(&mut self, budget: u32) -> Result<(), Memory>
        requires { IsBudget budget }
        ensures { OnOk result (play_state self.new ≡ after (play_state self.old) (pack.tick budget)) }
    {
        self.engine.set_rule(budget as i32);
        let chained = self.engine.chain(&self.names.tick, budget)?;
        self.count(chained, 1);
        Ok(())
    }

    /// So many ticks with this budget.
    pub(crate) fn tick_times(&mut self, count: u32, budget: u32) -> Result<(), Memory>
        requires { IsBudget budget }
        ensures { OnOk result (play_state self.new
            ≡ after_all (play_state self.old) (replicate count (pack.tick budget))) }
    {
        let mut left = count;
        while left > 0 {
            self.tick(budget)?;
            left -= 1;
        }
        Ok(())
    }

    /// Loads the pack again, with this budget.
    pub(crate) fn reload(&mut self, budget: u32) -> Result<(), Memory>
        requires { IsBudget budget }
        ensures { OnOk result (play_state self.new ≡ after (play_state self.old) (pack.reload budget)) }
    {
        self.engine.set_rule(budget as i32);
        self.load(budget)
    }

    /// Does what a command of scores or storages says.
    pub(crate) fn other(&mut self, cmd: &Cmd) -> Result<(), Memory>
        requires { is_foreign (cmd_view cmd.now) ≡ true }
        ensures { OnOk result (play_state self.new ≡ after (play_state self.old) (pack.other (cmd_view cmd.now))) }
    {
        self.engine.apply(cmd)?;
        Ok(())
    }

    /// The world.
    pub fn world(&self) -> &World
        ensures { seen result.now ≡ (play_state self.now).standing.world }
    {
        self.engine.world()
    }

    /// What the pack says of itself.
    pub fn index(&self) -> &Index
        ensures { index_view result.now ≡ (play_state self.now).pack.index }
    {
        match self.engine.index(0) {
            Some(index) => index,
            None => unreachable!(),
        }
    }

    /// The names of the pack's layout.
    pub fn names(&self) -> &LayoutNames
        ensures { result.now.ns ≡ (play_state self.now).pack.index.ns }
    {
        &self.names
    }

    /// The number of ticks so far, which stays at the last number of its type.
    pub fn ticks(&self) -> u128
        ensures { result ≡ (play_state self.now).standing.ticks }
    {
        self.ticks
    }

    /// The weight used by all chains so far, which stays at the last number of its type.
    pub fn used(&self) -> u128
        ensures { result ≡ (play_state self.now).standing.used }
    {
        self.used
    }

    /// Whether none of the chains so far was cut.
    pub fn uncut(&self) -> bool
        ensures { result ≡ not (play_state self.now).standing.cut }
    {
        !self.cut
    }

    /// What the pack answers.
    pub(crate) fn answer(&self) -> Option<Answer>
        ensures { option_map answer_view result ≡ answer_of (play_state self.now) }
    {
        answer(self.engine.world(), &self.names)
    }

    // Runs the load function with this quota.
    fn load(&mut self, quota: u32) -> Result<(), Memory>
        ensures { OnOk result (play_state self.new ≡ ran (play_state self.old) (codes "load") 0 quota) }
    {
        let chained = self.engine.chain(&self.names.load, quota)?;
        self.count(chained, 0);
        Ok(())
    }

    // Counts what a chain used, in so many new ticks.
    fn count(&mut self, chained: Chained, ticks: u32)
        ensures engine { shown self.new.engine ≡ shown self.old.engine }
        ensures ticks { self.new.ticks ≡ pack.counted (self.old.ticks + ticks) }
        ensures used { self.new.used ≡ pack.counted (self.old.used + chained.used) }
        ensures cut { self.new.cut ≡ (self.old.cut || chained.cut) }
    {
        self.ticks = self.ticks.saturating_add(u128::from(ticks));
        self.used = self.used.saturating_add(u128::from(chained.used));
        self.cut |= chained.cut;
    }
}
