//! The play of a script over several programs.

ghost use Rattle.std.specs.Prelude.{◌≡◌, ◌≢◌, ◌<◌, OnOk, Some, length, map, option_map, pos, replicate, slice_get, true};
ghost use Rattle.std.specs.List.{list_all};
ghost use Rattle.mc_cmd.specs.View.{cmd_view};
ghost use Rattle.mc_layout.specs.AnswerView.{answer_view};
ghost use Rattle.mc_tick.specs.Answers.{AreOfKinds};
ghost use Rattle.mc_together.specs.Share.{IsSharedBudget};
ghost use Rattle.mc_together.specs.Together.{after_events, loaded, tick};
ghost use Rattle.app_words.specs.Act as act;
ghost use Rattle.app_words.specs.SharedReport as report;
ghost use Rattle.app_words.specs.SharedScript.{all_fits, own_fits, shared_fits};
ghost use Rattle.app_words.specs.View.{act_view, shared_act_view, shared_line_view};
ghost use Rattle.app_words.specs.Workload as workload;
ghost use Rattle.app_play.specs.Play.{IsPlayed};
ghost use Rattle.app_play.specs.steps.Playing.{is_print};
ghost use Rattle.pk_multi.specs.Answers.{export_at, state_at};
ghost use Rattle.pk_multi.specs.State.{made_of, state_of};
ghost use Rattle.app_together.specs.steps.Steps.{IsBegun, IsMade, IsPlaying, IsPrinted, IsStep, answer_at, standing_so};

use app_play::{Cause, PlayFault, leave_out, prepared, printed, refused, say, tell_counts};
use app_words::{Act, ForeignCmd, SharedAct, SharedLine};
use io_dev::Sink;
use mc_layout::{Answer, answer};
use mc_nbt::{Memory, Text, Value};
use pk_multi::{Programs, ShareRefusal, SharedOther};
use std::alloc::Global;

// The place of the program that has this namespace.
fn place_of(programs: &Programs, ns: &Text) -> Option<usize>
    ensures { result ≡ report.place_of ns.now (state_of programs.now).packs }
{
    for who in 0..programs.count() {
        if programs.index(who).ns == *ns {
            return Some(who);
        }
    }
    None
}

// Whether this is the answer of a program that runs.
fn is_work(answer: Option<Answer>) -> bool
    ensures { result ≡ workload.is_running (option_map answer_view answer) }
{
    match answer {
        Some(Answer::Running) => true,
        Some(Answer::New) => false,
        Some(Answer::Done(_)) => false,
        Some(Answer::Trap(_)) => false,
        Some(Answer::Dead(_)) => false,
        None => false,
    }
}

// Whether the program at a place runs.
fn is_running(programs: &Programs, who: usize) -> bool
    requires { who < length (state_of programs.now).packs }
    ensures { result ≡ workload.is_running (answer_at (state_of programs.now) who) }
{
    is_work(answer(programs.world(), programs.names(who)))
}

// A call of the export at a place, with values of its kinds, of a program that doesn't run, at the line of this number.
fn begin(
    programs: &mut Programs,
    who: usize,
    line: u64,
    place: usize,
    values: &[Value],
) -> Result<(), PlayFault>
    requires playing { IsPlaying (state_of programs.now) }
    requires rests { state_at (state_of programs.now) who ≢ Some (pos 1) }
    requires fits { AreOfKinds (export_at (state_of programs.now) who place) values.now }
    ensures { IsBegun (state_of programs.old) who place values.now line result (state_of programs.new) }
{
    match programs.call(who, place, values) {
        Ok(()) => Ok(()),
        Err(ShareRefusal::Dead) => Err(refused(line, Cause::InstanceIsDead)),
        Err(ShareRefusal::NoProgram) => unreachable!(),
        Err(ShareRefusal::NoExport) => unreachable!(),
        Err(ShareRefusal::WrongArgs) => unreachable!(),
        Err(ShareRefusal::Busy) => unreachable!(),
        Err(ShareRefusal::Memory) => Err(PlayFault::Memory),
    }
}

// A call of the program at a place, at the line of this number.
fn call<O: Sink>(
    alloc: Global,
    out: &mut O,
    programs: &mut Programs,
    who: usize,
    line: u64,
    name: &Text,
    args: &[i128],
) -> Result<(), PlayFault>
    requires playing { IsPlaying (state_of programs.now) }
    requires place { who < length (state_of programs.now).packs }
    ensures { let s = state_of programs.old in
        IsStep s (report.own_acted s.packs (act.call name.now args.now) s.standing who (slice_get s.packs who))
        line result (state_of programs.new) (O.state out.old) (O.state out.new) }
{
    if is_running(programs, who) {
        return leave_out(alloc, out);
    }
    let (place, values) = prepared(alloc, programs.index(who), line, name, args)?;
    begin(programs, who, line, place, &values)
}

// What the program at a place shows.
fn print<O: Sink>(
    alloc: Global,
    out: &mut O,
    programs: &Programs,
    who: usize,
    act: &Act,
) -> Result<(), PlayFault>
    requires prints { is_print (act_view act.now) ≡ true }
    requires place { who < length (state_of programs.now).packs }
    ensures { IsPrinted (state_of programs.now) who (act_view act.now) (O.state out.old) (O.state out.new) result }
{
    let text = printed(alloc, programs.world(), &programs.names(who).ns, act)?;
    say(out, text.as_str())
}

// What is asked of the program of a namespace, at the line of this number.
fn ask<O: Sink>(
    alloc: Global,
    out: &mut O,
    programs: &mut Programs,
    line: u64,
    ns: &Text,
    act: &Act,
) -> Result<(), PlayFault>
    requires playing { IsPlaying (state_of programs.now) }
    requires fits { own_fits (act_view act.now) ≡ true }
    ensures { let s = state_of programs.old in
        IsStep s (report.acted_within s.packs (act_view act.now) s.standing (report.place_of ns.now s.packs))
        line result (state_of programs.new) (O.state out.old) (O.state out.new) }
{
    let Some(who) = place_of(programs, ns) else {
        return Err(refused(line, Cause::NoSuchProgram));
    };
    match act {
        Act::Call { name, args } => call(alloc, out, programs, who, line, name, args),
        Act::Show | Act::Globals | Act::Memory { .. } | Act::Dump => {
            print(alloc, out, programs, who, act)
        }
        Act::Tick { .. } | Act::Ticks { .. } | Act::Reload { .. } | Act::Other { .. } => {
            unreachable!()
        }
        Act::Inspect => unreachable!(),
    }
}

// So many ticks with this budget for all.
fn tick_times(programs: &mut Programs, count: u32, budget: u32) -> Result<(), Memory>
    requires playing { IsPlaying (state_of programs.now) }
    requires budget { IsSharedBudget (length (state_of programs.now).packs) budget }
    ensures { let s = state_of programs.old in OnOk result (state_of programs.new
        ≡ standing_so s (after_events s.packs (replicate count (tick budget)) s.standing)) }
{
    let mut left = count;
    while left > 0 {
        programs.share(budget)?;
        left -= 1;
    }
    Ok(())
}

// A command of somebody else, at the line of this number.
fn apply(programs: &mut Programs, line: u64, cmd: &ForeignCmd) -> Result<(), PlayFault>
    requires playing { IsPlaying (state_of programs.now) }
    ensures { let s = state_of programs.old in let c = cmd_view cmd.now in
        IsMade s (report.other_done s.packs s.standing c (report.first_own_of s.packs c))
        line result (state_of programs.new) }
{
    match programs.other(cmd.cmd()) {
        Ok(()) => Ok(()),
        Err(SharedOther::Own { name }) => Err(refused(line, Cause::Names(name))),
        Err(SharedOther::NotForeign) => unreachable!(),
        Err(SharedOther::Memory) => Err(PlayFault::Memory),
    }
}

// An event for all programs, at the line of this number.
fn happen(programs: &mut Programs, line: u64, act: &Act) -> Result<(), PlayFault>
    requires playing { IsPlaying (state_of programs.now) }
    requires fits { all_fits (length (state_of programs.now).packs) (act_view act.now) ≡ true }
    ensures { let s = state_of programs.old in
        IsMade s (report.acted_for_all s.packs (act_view act.now) s.standing) line result (state_of programs.new) }
{
    match act {
        Act::Tick { budget } => Ok(programs.share(budget.number())?),
        Act::Ticks { count, budget } => Ok(tick_times(programs, *count, budget.number())?),
        Act::Reload { budget } => Ok(programs.reload(budget.number())?),
        Act::Other { cmd } => apply(programs, line, cmd),
        _ => unreachable!(),
    }
}

// What one line does.
fn step<O: Sink>(
    alloc: Global,
    out: &mut O,
    programs: &mut Programs,
    line: &SharedLine,
) -> Result<(), PlayFault>
    requires playing { IsPlaying (state_of programs.now) }
    requires fits { shared_fits (length (state_of programs.now).packs) (shared_act_view line.now.act) ≡ true }
    ensures { let s = state_of programs.old in
        IsStep s (report.shared_acted s.packs (shared_act_view line.now.act) s.standing)
        line.now.line result (state_of programs.new) (O.state out.old) (O.state out.new) }
{
    match &line.act {
        SharedAct::ForAll { act } => happen(programs, line.line, act),
        SharedAct::Within { ns, act } => ask(alloc, out, programs, line.line, ns, act),
    }
}

// The weight that the chains of all programs used.
fn used_by_all(programs: &Programs) -> u128
    ensures { let s = state_of programs.now in result ≡ report.used_by_all s.packs s.standing }
{
    let mut used: u128 = 0;
    for who in 0..programs.count() {
        used = used.saturating_add(programs.used(who));
    }
    used
}

/// Loads the programs, plays the lines of a script over them, and writes what they print.
///
/// # Errors
///
/// - `Output` where the sink failed; a prefix of what the lines print was then written.
/// - `Refused` at the first line that is refused; what stands before it was written.
/// - `Memory` where there was no memory; a prefix of what the lines print was then written.
pub fn play_together<O: Sink>(
    alloc: Global,
    out: &mut O,
    programs: Programs,
    lines: &[SharedLine],
) -> Result<(), PlayFault>
    requires made { state_of programs ≡ made_of (state_of programs).packs }
    requires fit { list_all (λ l. shared_fits (length (state_of programs).packs) l.act)
        (map shared_line_view lines.now) ≡ true }
    ensures { let ps = (state_of programs).packs in
        IsPlayed (report.shared_report ps (map shared_line_view lines.now) (loaded ps))
        result (O.state out.old) (O.state out.new) }
{
    let mut playing = programs;
    playing.boot()?;
    for line in lines {
        step(alloc, out, &mut playing, line)?;
    }
    let ticks = playing.ticks();
    let used = used_by_all(&playing);
    drop(playing);
    tell_counts(alloc, out, ticks, used)
}
