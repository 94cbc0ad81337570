// The commands of steps and of items.
ghost use Rattle.std.specs.Prelude.{◌≡◌, ◌++◌, ◌∷◌, [], IfOk, map};
ghost use Rattle.mc_cmd.specs.Command as command;
ghost use Rattle.mc_cmd.specs.Layout.{full_name};
ghost use Rattle.mc_cmd.specs.View.{cmd_view, simple_view, sub_view, test_view};
ghost use Rattle.cc_line.specs.Item.{item_command};
ghost use Rattle.cc_line.specs.Step.{act_said, check_test, cond_sub, cond_subs, said_command, step_command};
ghost use Rattle.cc_line.specs.View.{act_view, check_view, cond_view, conds_view, item_view, name_text, site_view, step_view};
ghost use Rattle.cc_line.specs.View.{table_step};
ghost use Rattle.cc_line.specs.steps.SaidView.{behind, behind_some, filling, stores_view};

use crate::said::{Said, said_of};
use crate::word::{Score, Stored, function_name, score_of, stored_at};
use crate::{Act, Check, Cond, Conds, Item, Key, Name, Site, Step, Store};
use mc_cmd::{CmdKind, Simple, Sub, Test};
use mc_nbt::{Memory, Nbt, NbtList, Text};
use std::alloc::Global;

/// The command of a step under a namespace.
///
/// # Errors
///
/// `Memory` where there is no room for it, or a place's number or an amount is no int.
pub fn command_of(alloc: Global, step: Step, ns: &Text) -> Result<CmdKind, Memory>
    ensures { IfOk result (λ k. cmd_view k ≡ step_command ns.now (step_view step)) }
{
    match step {
        Step::Run(act) => act_command(alloc, act, ns),
        Step::When(conds, act) => when_command(alloc, conds, act, ns),
        Step::StopWhen(conds) => guarded(alloc, Some(conds), Simple::Return { value: 0 }, ns),
    }
}

/// The command of an item under a namespace.
///
/// # Errors
///
/// As `command_of`.
#[tactic(auto, using(crate::proofs::CallLemmas::call_command, crate::proofs::CallLemmas::fill_command,))]
pub fn command_of_item(alloc: Global, item: &Item, ns: &Text) -> Result<CmdKind, Memory>
    ensures { IfOk result (λ k. cmd_view k ≡ item_command ns.now (item_view item.now)) }
{
    match item {
        Item::Step(step) => command_of(alloc, *step, ns),
        Item::Call { when, name, .. } => call(alloc, *when, *name, ns),
        Item::Fill {
            when,
            name,
            site,
            ..
        } => fill(alloc, *when, *name, *site, ns),
        Item::LookUp { name, site, .. } => fill(alloc, None, *name, *site, ns),
        Item::Table(table) => table_command(alloc, table.as_slice(), ns),
    }
}

// The command that sets a table.
pub(crate) fn table_command(alloc: Global, table: &[i32], ns: &Text) -> Result<CmdKind, Memory>
    ensures { IfOk result (λ k. cmd_view k ≡ step_command ns.now (table_step table.now)) }
{
    let Stored { id, path } = stored_at(alloc, Site::at(Store::Rest, Key::Table), ns)?;
    let value = Nbt::List(NbtList::Ints(Vec::from_slice(alloc, table)?));
    Ok(CmdKind::Simple(Simple::SetValue { id, path, value }))
}

fn call(alloc: Global, when: Option<Conds>, name: Name, ns: &Text) -> Result<CmdKind, Memory>
    ensures { IfOk result (λ k. cmd_view k
        ≡ behind_some ns.now when (command.call (full_name ns.now (name_text name)))) }
{
    let name = function_name(alloc, name, ns)?;
    guarded(alloc, when, Simple::Function { name }, ns)
}

fn fill(
    alloc: Global,
    when: Option<Conds>,
    name: Name,
    site: Site,
    ns: &Text,
) -> Result<CmdKind, Memory>
    ensures { IfOk result (λ k. cmd_view k
        ≡ behind_some ns.now when (filling ns.now (name_text name) (site_view site))) }
{
    let name = function_name(alloc, name, ns)?;
    let Stored { id, path } = stored_at(alloc, site, ns)?;
    guarded(alloc, when, Simple::FunctionWith { name, id, path }, ns)
}

// A command, behind conditions if there are some.
fn guarded(alloc: Global, when: Option<Conds>, run: Simple, ns: &Text) -> Result<CmdKind, Memory>
    ensures { IfOk result (λ k. cmd_view k ≡ behind_some ns.now when (simple_view run)) }
{
    match when {
        None => Ok(CmdKind::Simple(run)),
        Some(conds) => Ok(CmdKind::Execute {
            subs: subs_of(alloc, conds, ns)?,
            run,
        }),
    }
}

fn act_command(alloc: Global, act: Act, ns: &Text) -> Result<CmdKind, Memory>
    ensures { IfOk result (λ k. cmd_view k ≡ said_command (act_said ns.now (act_view act))) }
{
    let Said { store, simple } = said_of(alloc, act, ns)?;
    match store {
        None => Ok(CmdKind::Simple(simple)),
        Some(store) => Ok(CmdKind::Execute {
            subs: vec![in alloc; store]?,
            run: simple,
        }),
    }
}

fn when_command(alloc: Global, conds: Conds, act: Act, ns: &Text) -> Result<CmdKind, Memory>
    ensures { IfOk result (λ k. cmd_view k
        ≡ behind (cond_subs ns.now (conds_view conds)) (act_said ns.now (act_view act))) }
{
    let subs = subs_of(alloc, conds, ns)?;
    let Said { store, simple } = said_of(alloc, act, ns)?;
    Ok(CmdKind::Execute {
        subs: with_store(subs, store)?,
        run: simple,
    })
}

fn with_store(subs: Vec<Sub>, store: Option<Sub>) -> Result<Vec<Sub>, Memory>
    ensures { IfOk result (λ v. map sub_view v.items ≡ map sub_view subs.items ++ stores_view store) }
{
    match store {
        None => Ok(subs),
        Some(store) => with_sub(subs, store),
    }
}

fn with_sub(subs: Vec<Sub>, sub: Sub) -> Result<Vec<Sub>, Memory>
    ensures { IfOk result (λ v. v.items ≡ subs.items ++ (sub ∷ [])) }
{
    let mut all = subs;
    all.push(sub)?;
    Ok(all)
}

fn subs_of(alloc: Global, conds: Conds, ns: &Text) -> Result<Vec<Sub>, Memory>
    ensures { IfOk result (λ v. map sub_view v.items ≡ cond_subs ns.now (conds_view conds)) }
{
    match conds {
        Conds::One(only) => Ok(vec![in alloc; sub_of(alloc, only, ns)?]?),
        Conds::Two(first, second) => {
            let first = sub_of(alloc, first, ns)?;
            let second = sub_of(alloc, second, ns)?;
            Ok(vec![in alloc; first, second]?)
        }
    }
}

fn sub_of(alloc: Global, cond: Cond, ns: &Text) -> Result<Sub, Memory>
    ensures { IfOk result (λ s. sub_view s ≡ cond_sub ns.now (cond_view cond)) }
{
    match cond {
        Cond::Holds(check) => Ok(Sub::Test {
            unless: false,
            test: test_of(alloc, check, ns)?,
        }),
        Cond::Fails(check) => Ok(Sub::Test {
            unless: true,
            test: test_of(alloc, check, ns)?,
        }),
    }
}

fn test_of(alloc: Global, check: Check, ns: &Text) -> Result<Test, Memory>
    ensures { IfOk result (λ t. test_view t ≡ check_test ns.now (check_view check)) }
{
    match check {
        Check::InRange(spot, range) => {
            let Score { holder, obj } = score_of(alloc, spot, ns)?;
            Ok(Test::Matches { holder, obj, range })
        }
        Check::Compare(spot, cmp, other) => {
            let Score { holder, obj } = score_of(alloc, spot, ns)?;
            let Score {
                holder: from_holder,
                obj: from_obj,
            } = score_of(alloc, other, ns)?;
            Ok(Test::Compare {
                holder,
                obj,
                cmp,
                from_holder,
                from_obj,
            })
        }
        Check::Stands(site) => {
            let Stored { id, path } = stored_at(alloc, site, ns)?;
            Ok(Test::Stored { id, path })
        }
    }
}
