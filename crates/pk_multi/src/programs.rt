//! Several programs in one world.

ghost use Rattle.std.specs.Prelude.{◌≡◌, ◌<◌, ◌≤◌, List, OnOk, Some, false, length, not, option_map, slice_get, true};
ghost use Rattle.std.specs.List.{list_all};
ghost use Rattle.mc_nbt.specs.Value.{is_value};
ghost use Rattle.mc_cmd.specs.Packing.{index_view};
ghost use Rattle.mc_cmd.specs.View.{cmd_view};
ghost use Rattle.mc_together.specs.Programs.{MayLiveTogether};
ghost use Rattle.mc_together.specs.Share.{IsSharedBudget};
ghost use Rattle.mc_together.specs.Together.{Event, reload, run_all, tick};
ghost use Rattle.mc_engine.specs.EngineView.{shown};
ghost use Rattle.mc_world.specs.WorldView.{seen};
ghost use Rattle.pk_multi.specs.Counting.{AreNamed, run_at};
ghost use Rattle.pk_multi.specs.Entry.{AreSmall, function_of, share_by};
ghost use Rattle.pk_multi.specs.Standing.{packs_in};

use crate::calling::{fits, rests};
use crate::law::programs_stand_as_alone;
use crate::making::{programs_of, same_space};
use crate::naming::first_own;
use crate::program::{Entry, Program, start_of};
use crate::sharing::{Shares, share_by};
use crate::{MultiFault, ShareRefusal, SharedOther};
use mc_cmd::{BMIN, Cmd, Index, LOAD_QUOTA, Pack, is_foreign};
use mc_engine::Engine;
use mc_layout::{LayoutNames, full_name, state};
use mc_nbt::{Memory, Text, Value};
use mc_tick::{ints_of, set_args};
use mc_together::tidy_packs_may_live_together;
use mc_world::World;
use std::alloc::Global;

/// Packs that run in one world on one budget: 1 to 16, each tidy under a namespace of its own.
///
/// Contracts see them as the state that `state_of` gives.
#[derive(Drop)]
pub struct Programs {
    alloc: Global,
    engine: Engine,
    programs: Vec<Program>,
    ticks: u128,
    booted: bool,
    failed: bool,
    ghost some: { 0 < length programs.items },
    ghost few: { length programs.items ≤ 16 },
    ghost named: { AreNamed programs.items (shown engine).packs },
    ghost apart: { MayLiveTogether (shown engine).packs },
}

impl Programs {
    ghost use Rattle.pk_multi.specs.Answers.{IsApplied, IsCalled, state_at};
    ghost use Rattle.pk_multi.specs.Played.{AllStandAsAlone, HasPlayed};
    ghost use Rattle.pk_multi.specs.State.{IsDone, IsMade, after, after_boot, state_of};
    ghost use Rattle.pk_multi.specs.steps.Calling.{IsAllowed, IsToldOwn, call_at};

    /// These packs over the world before any command, not loaded yet.
    ///
    /// # Errors
    ///
    /// `SameSpace` exactly where a pack has the namespace of one before it, with the first such; else `Untidy` exactly
    /// where a line isn't tidy under its pack's namespace, with the first such; else `Memory` where there is no room
    /// for what the lines say. `Memory` may stand in the place of `Untidy`.
    pub fn new(alloc: Global, packs: Vec<Pack>) -> Result<Programs, MultiFault>
        requires some { 0 < length packs.items }
        requires few { length packs.items ≤ 16 }
        ensures { IsMade packs.items result }
    {
        if let Some(index) = same_space(packs.as_slice()) {
            return Err(MultiFault::SameSpace { index });
        }
        let programs = programs_of(alloc, packs.as_slice())?;
        let engine = Engine::load_all(alloc, packs)?;
        Ok(Programs {
            alloc,
            engine,
            programs,
            ticks: 0,
            booted: false,
            failed: false,
        })
    }

    /// Loads each pack in order, with the quota 65,536.
    ///
    /// # Errors
    ///
    /// `Memory` where there is no room for what a pack writes or runs.
    pub fn boot(&mut self) -> Result<(), Memory>
        requires { (state_of self.now).booted ≡ false }
        ensures { IsDone (record (state_of self.old) { booted = true }) (after_boot (state_of self.old))
            (state_of self.new) result }
    {
        self.booted = true;
        if self.failed {
            return Err(Memory);
        }
        self.failed = true;
        self.run_all(Entry::Load, Shares::Each(LOAD_QUOTA))?;
        self.failed = false;
        Ok(())
    }

    /// One tick with this budget for all programs.
    ///
    /// # Errors
    ///
    /// `Memory` where there is no room for what a pack writes or runs.
    pub fn share(&mut self, budget: u32) -> Result<(), Memory>
        requires booted { (state_of self.now).booted ≡ true }
        requires budget { IsSharedBudget (length (state_of self.now).packs) budget }
        ensures { IsDone (state_of self.old) (after (state_of self.old) (tick budget)) (state_of self.new) result }
    {
        if self.failed {
            return Err(Memory);
        }
        self.failed = true;
        self.run_all(Entry::Tick, Shares::Of(budget))?;
        self.ticks = self.ticks.saturating_add(1);
        self.failed = false;
        Ok(())
    }

    /// Loads each pack again in order, with this budget for all.
    ///
    /// # Errors
    ///
    /// `Memory` where there is no room for what a pack writes or runs.
    pub fn reload(&mut self, budget: u32) -> Result<(), Memory>
        requires booted { (state_of self.now).booted ≡ true }
        requires budget { IsSharedBudget (length (state_of self.now).packs) budget }
        ensures { IsDone (state_of self.old) (after (state_of self.old) (reload budget)) (state_of self.new) result }
    {
        if self.failed {
            return Err(Memory);
        }
        self.failed = true;
        self.run_all(Entry::Load, Shares::Of(budget))?;
        self.failed = false;
        Ok(())
    }

    /// Calls the export at a place of the program at a place, with the quota `BMIN`; the rule is the program's last
    /// share.
    ///
    /// # Errors
    ///
    /// The first of these whose cause is there. But for `Memory` nothing is changed.
    ///
    /// - `Memory` where memory was wanting before.
    /// - `NoProgram` exactly where `who` isn't below the number of packs.
    /// - `NoExport` exactly where the program has no export at this place.
    /// - `WrongArgs` exactly where the number or the kinds of the arguments differ from its parameters'.
    /// - `Busy` exactly where the program's state is 1.
    /// - `Dead` exactly where it is 4.
    /// - `Memory` where there is no room for what the call writes or runs.
    pub fn call(&mut self, who: usize, export: usize, args: &[Value]) -> Result<(), ShareRefusal>
        requires { (state_of self.now).booted ≡ true }
        ensures { IsCalled (state_of self.old) who export args.now (state_of self.new) result }
    {
        if self.failed {
            return Err(ShareRefusal::Memory);
        }
        if let Err(refusal) = self.may_call(who, export, args) {
            return Err(refusal);
        }
        self.failed = true;
        self.run_call(who, export, args)?;
        self.failed = false;
        Ok(())
    }

    /// Does what a command of somebody else says.
    ///
    /// # Errors
    ///
    /// The first of these whose cause is there. But for `Memory` nothing is changed.
    ///
    /// - `Memory` where memory was wanting before.
    /// - `NotForeign` exactly where the command is none of `scoreboard` and `data`.
    /// - `Own` exactly where it names what is any program's, with the first such name.
    /// - `Memory` where there is no room for what the command writes, or to tell the name.
    pub fn other(&mut self, cmd: &Cmd) -> Result<(), SharedOther>
        requires { (state_of self.now).booted ≡ true }
        ensures { IsApplied (state_of self.old) (cmd_view cmd.now) (state_of self.new) result }
    {
        if self.failed {
            return Err(SharedOther::Memory);
        }
        if !is_foreign(cmd) {
            return Err(SharedOther::NotForeign);
        }
        let own = first_own(cmd, self.programs.as_slice());
        if let Some(name) = own {
            return Err(self.own_told(name));
        }
        self.failed = true;
        self.engine.apply(cmd)?;
        self.failed = false;
        Ok(())
    }

    // That a command names what is a program's.
    fn own_told(&mut self, name: &Text) -> SharedOther
        requires { self.now.failed ≡ false }
        ensures { IsToldOwn name.now (state_of self.old) (state_of self.new) result }
    {
        match name.clone() {
            Ok(name) => SharedOther::Own { name },
            Err(_) => {
                self.failed = true;
                SharedOther::Memory
            }
        }
    }

    // Whether a call may start.
    fn may_call(&self, who: usize, export: usize, args: &[Value]) -> Result<(), ShareRefusal>
        ensures { IsAllowed (state_of self.now) who export args.now result }
    {
        let Some(index) = self.engine.index(who) else {
            return Err(ShareRefusal::NoProgram);
        };
        match fits(index, export, args) {
            Ok(()) => rests(self.state(who)),
            Err(refusal) => Err(refusal),
        }
    }

    // The number of the state of the program at a place.
    fn state(&self, who: usize) -> Option<i32>
        requires { who < length self.now.programs.items }
        ensures { result ≡ state_at (state_of self.now) who }
    {
        state(self.engine.world(), &self.program(who).names)
    }

    // What is kept of the program at a place.
    fn program(&self, who: usize) -> &Program
        requires { who < length self.now.programs.items }
        ensures { slice_get self.now.programs.items who ≡ Some result.now }
    {
        match self.programs.get(who) {
            Some(program) => program,
            None => unreachable!(),
        }
    }

    // A call of the program at a place.
    fn run_call(&mut self, who: usize, export: usize, args: &[Value]) -> Result<(), Memory>
        requires failed { self.now.failed ≡ true }
        requires place { who < length self.now.programs.items }
        ensures packs { packs_in (shown self.new.engine) ≡ packs_in (shown self.old.engine) }
        ensures same { (self.new.ticks ≡ self.old.ticks) × (self.new.booted ≡ self.old.booted)
            × (self.new.failed ≡ true) }
        ensures values { OnOk result (list_all is_value args.now ≡ true) }
        ensures event { OnOk result ((state_of self.new).standing
            ≡ call_at (state_of self.old).packs export args.now who (state_of self.old).standing) }
    {
        let Some(program) = self.programs.get_mut(who) else {
            unreachable!()
        };
        self.engine.set_rule(program.share as i32);
        let ints = ints_of(self.alloc, args)?;
        let set = set_args(self.alloc, &program.names, ints)?;
        self.engine.apply(&set)?;
        let name = format!(in self.alloc; "c{export}")?;
        let start = full_name(self.alloc, &program.names.ns, name.as_str())?;
        let chained = self.engine.chain(&start, BMIN)?;
        program.count(chained, program.share);
        Ok(())
    }

    // A function of each program in order, with what it gets.
    fn run_all(&mut self, entry: Entry, shares: Shares) -> Result<(), Memory>
        requires failed { self.now.failed ≡ true }
        requires small { AreSmall shares }
        ensures packs { packs_in (shown self.new.engine) ≡ packs_in (shown self.old.engine) }
        ensures same { (self.new.ticks ≡ self.old.ticks) × (self.new.booted ≡ self.old.booted)
            × (self.new.failed ≡ true) }
        ensures event { OnOk result ((state_of self.new).standing
            ≡ run_all (state_of self.old).packs (function_of entry)
            (share_by shares (length (state_of self.old).packs) self.old.ticks) (state_of self.old).standing) }
    {
        let count = self.programs.len() as u32;
        let ticks = self.ticks;
        for who in 0..count {
            let share = share_by(shares, count, ticks, who);
            self.run(entry, who as usize, share)?;
        }
        Ok(())
    }

    // A function of the program at a place, with its share.
    fn run(&mut self, entry: Entry, who: usize, share: u32) -> Result<(), Memory>
        requires failed { self.now.failed ≡ true }
        requires place { who < length self.now.programs.items }
        requires small { share ≤ 2147483647 }
        ensures packs { packs_in (shown self.new.engine) ≡ packs_in (shown self.old.engine) }
        ensures same { (self.new.ticks ≡ self.old.ticks) × (self.new.booted ≡ self.old.booted)
            × (self.new.failed ≡ true) }
        ensures event { OnOk result ((state_of self.new).standing
            ≡ run_at (state_of self.old).packs (function_of entry) share who (state_of self.old).standing) }
    {
        let Some(program) = self.programs.get_mut(who) else {
            unreachable!()
        };
        self.engine.set_rule(share as i32);
        let start = start_of(entry, &program.names);
        let chained = self.engine.chain(start, share)?;
        program.count(chained, share);
        Ok(())
    }

    /// The world. In it each program stands as it does alone, where what falls to it of the events so far happens.
    pub fn world(&self) -> &World
        ensures world { seen result.now ≡ (state_of self.now).standing.world }
        ensures alone { (es : List Event) → HasPlayed (state_of self.now) es
            → AllStandAsAlone (state_of self.now) es }
    {
        tidy_packs_may_live_together();
        programs_stand_as_alone();
        self.engine.world()
    }

    /// The number of packs.
    pub fn count(&self) -> usize
        ensures { result ≡ length (state_of self.now).packs }
    {
        self.programs.len()
    }

    /// What the pack at a place says of itself.
    pub fn index(&self, who: usize) -> &Index
        requires { who < length (state_of self.now).packs }
        ensures { option_map (λ p. p.index) (slice_get (state_of self.now).packs who)
            ≡ Some (index_view result.now) }
    {
        match self.engine.index(who) {
            Some(index) => index,
            None => unreachable!(),
        }
    }

    /// The names of the layout of the pack at a place.
    pub fn names(&self, who: usize) -> &LayoutNames
        requires { who < length (state_of self.now).packs }
        ensures { option_map (λ p. p.index.ns) (slice_get (state_of self.now).packs who) ≡ Some result.now.ns }
    {
        &self.program(who).names
    }

    /// The weight that the chains of the program at a place used so far, which stays at the last number of its type.
    pub fn used(&self, who: usize) -> u128
        requires { who < length (state_of self.now).packs }
        ensures { result ≡ ((state_of self.now).standing.counts who).used }
    {
        self.program(who).used
    }

    /// Whether none of the chains of the program at a place was cut so far.
    pub fn uncut(&self, who: usize) -> bool
        requires { who < length (state_of self.now).packs }
        ensures { result ≡ not ((state_of self.now).standing.counts who).cut }
    {
        !self.program(who).cut
    }

    /// The number of ticks so far, which stays at the last number of its type.
    pub fn ticks(&self) -> u128
        ensures { result ≡ (state_of self.now).standing.ticks }
    {
        self.ticks
    }

    /// Whether the packs were loaded.
    pub fn booted(&self) -> bool
        ensures { result ≡ (state_of self.now).booted }
    {
        self.booted
    }
}
