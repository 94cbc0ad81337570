ghost use Rattle.std.specs.Prelude.{◌≡◌};
ghost use Rattle.mc_world.specs.steps.Trees.{AreTrees};

mod conditions;
mod kept;
mod places;
mod scores;
mod storages;
mod stores;

use crate::Outcome;
use crate::outcome::{failed, given};
use crate::scoreboard::Scoreboard;
use crate::tree_change::Way;
use indexmap::IndexMap;
use mc_cmd::{Cmd, CmdKind, Simple, Sub};
use mc_nbt::{Memory, Nbt, Text};
use std::alloc::Global;
use std::cell::Cell;

/// A world: the scores of each objective by their holders, the trees of the storages by the storages' names, and
/// the rule maxCommandChainLength.
#[derive(Drop)]
pub struct World {
    alloc: Global,
    board: Scoreboard,
    storages: IndexMap<String, Nbt>,
    // Where a storage was last found.
    last: Cell<usize>,
    rule: i32,
    ghost trees: { AreTrees storages },
}

impl World {
    ghost use Rattle.std.specs.Prelude.{◌≡◌, [], IfOk, IfSome, OnErr, Some, map, option_map, true};
    ghost use Rattle.mc_nbt.specs.Shape.{IsTree};
    ghost use Rattle.mc_nbt.specs.View.{view};
    ghost use Rattle.mc_cmd.specs.Command as spec;
    ghost use Rattle.mc_cmd.specs.Grammar.{cmd_fits, may_run, simple_fits};
    ghost use Rattle.mc_cmd.specs.View.{cmd_view, simple_view, sub_view};
    ghost use Rattle.mc_cmd.specs.World.{cmd_effect, effect, empty_world, executed, is_direct, with_rule};
    ghost use Rattle.mc_world.specs.NamedMap.{name_get};
    ghost use Rattle.mc_world.specs.Placed.{placed};
    ghost use Rattle.mc_world.specs.WorldView.{IsLeftInPart, run_of, seen, told};

    /// The world before any command.
    pub fn new(alloc: Global) -> World
        ensures world { seen result ≡ empty_world }
        ensures places { placed result ≡ [] }
    {
        World {
            alloc,
            board: Scoreboard::new(alloc),
            storages: IndexMap::new(alloc),
            last: Cell::new(0),
            rule: 65_536,
        }
    }

    /// The score of a holder under an objective, if it is set.
    pub fn score(&self, holder: &Text, obj: &Text) -> Option<i32>
        ensures { result ≡ (seen self.now).scores holder.now obj.now }
    {
        let place = self.board.place(holder, obj)?;
        self.board.score_at(place)
    }

    /// The tree of a storage, which may stand in one; `None` exactly where no command made one.
    pub fn storage(&self, id: &Text) -> Option<&Nbt>
        ensures storage { option_map (λ t. view t.now) result ≡ (seen self.now).storages id.now }
        ensures tree { IfSome result (λ t. IsTree (view t.now)) }
    {
        match self.storage_at(self.last.get(), id) {
            Some(tree) => Some(tree),
            None => {
                let (place, _, tree) = self.storages.get_full(id.as_str())?;
                self.last.set(place);
                Some(tree)
            }
        }
    }

    // The tree of a storage, if it stands at this place.
    fn storage_at(&self, place: usize, id: &Text) -> Option<&Nbt>
        ensures { IfSome result (λ t. name_get self.now.storages id.now ≡ Some t.now) }
    {
        let (name, tree) = self.storages.get_index(place)?;
        if name.as_bytes() == id.as_bytes() {
            Some(tree)
        } else {
            None
        }
    }

    /// The rule.
    pub fn rule(&self) -> i32
        ensures { result ≡ (seen self.now).rule }
    {
        self.rule
    }

    /// Sets the rule.
    pub fn set_rule(&mut self, rule: i32)
        ensures { seen self.new ≡ with_rule (seen self.old) rule }
    {
        self.rule = rule;
    }

    /// Does what a command says, which is none of `function` and `return`, nor runs one.
    ///
    /// # Errors
    ///
    /// `Memory` where there is no room for what it writes. The world is then as it was, except that of the stores of
    /// an `execute` those before some place may be made.
    pub fn apply(&mut self, cmd: &Cmd) -> Result<Outcome, Memory>
        requires { is_direct (run_of (cmd_view cmd.now)) ≡ true }
        ensures effect { IfOk result (λ o. told o (seen self.new) ≡ cmd_effect (cmd_view cmd.now) (seen self.old)) }
        ensures memory { OnErr result (IsLeftInPart (cmd_view cmd.now) (seen self.old) (seen self.new)) }
    {
        self.apply_kind(cmd.kind())
    }

    fn apply_kind(&mut self, kind: &CmdKind) -> Result<Outcome, Memory>
        requires direct { is_direct (run_of (cmd_view kind.now)) ≡ true }
        requires fits { cmd_fits (cmd_view kind.now) ≡ true }
        ensures effect { IfOk result (λ o. told o (seen self.new) ≡ cmd_effect (cmd_view kind.now) (seen self.old)) }
        ensures memory { OnErr result (IsLeftInPart (cmd_view kind.now) (seen self.old) (seen self.new)) }
    {
        match kind {
            CmdKind::Simple(simple) => self.run(simple),
            CmdKind::Execute { subs, run } => self.execute(subs.as_slice(), run),
        }
    }

    fn execute(&mut self, subs: &[Sub], run: &Simple) -> Result<Outcome, Memory>
        requires direct { is_direct (simple_view run.now) ≡ true }
        requires fits { simple_fits (simple_view run.now) ≡ true }
        requires may { may_run (map sub_view subs.now) (simple_view run.now) ≡ true }
        ensures effect { IfOk result (λ o. told o (seen self.new) ≡ executed (map sub_view subs.now) (simple_view run.now) (seen self.old)) }
        ensures memory { OnErr result (IsLeftInPart (spec.execute (map sub_view subs.now) (simple_view run.now)) (seen self.old) (seen self.new)) }
    {
        if !self.all_go_on(subs) {
            return Ok(failed());
        }
        let outcome = self.run(run)?;
        self.store_all(subs, outcome.result)?;
        Ok(outcome)
    }

    fn run(&mut self, simple: &Simple) -> Result<Outcome, Memory>
        requires direct { is_direct (simple_view simple.now) ≡ true }
        requires fits { simple_fits (simple_view simple.now) ≡ true }
        ensures effect { IfOk result (λ o. told o (seen self.new) ≡ effect (simple_view simple.now) (seen self.old)) }
        ensures unchanged { OnErr result (seen self.new ≡ seen self.old) }
    {
        match simple {
            Simple::ObjectiveAdd { obj } => self.objective_add(obj),
            Simple::ScoreSet { holder, obj, value } => self.score_set(holder, obj, *value),
            Simple::ScoreAdd { holder, obj, value } => self.score_add(holder, obj, *value),
            Simple::ScoreRemove { holder, obj, value } => self.score_remove(holder, obj, *value),
            Simple::ScoreGet { holder, obj } => Ok(self.score_get(holder, obj)),
            Simple::ScoreOp {
                holder,
                obj,
                op,
                from_holder,
                from_obj,
            } => self.score_op(holder, obj, *op, from_holder, from_obj),
            Simple::ScoreReset { holder, obj } => Ok(self.score_reset(holder, obj)),
            Simple::DataGet { id, path } => Ok(self.data_get(id, path)),
            Simple::SetValue { id, path, value } => self.put_value(Way::Set, id, path, value),
            Simple::SetFrom {
                id,
                path,
                from_id,
                from_path,
            } => self.put_from(Way::Set, id, path, from_id, from_path),
            Simple::AppendValue { id, path, value } => self.put_value(Way::Append, id, path, value),
            Simple::AppendFrom {
                id,
                path,
                from_id,
                from_path,
            } => self.put_from(Way::Append, id, path, from_id, from_path),
            Simple::DataRemove { id, path } => self.data_remove(id, path),
            Simple::Function { .. } => unreachable!(),
            Simple::FunctionWith { .. } => unreachable!(),
            Simple::Return { .. } => unreachable!(),
            Simple::ChainLength => Ok(given(self.rule)),
        }
    }
}
