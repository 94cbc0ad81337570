//! The play of a script over a pack.

ghost use Rattle.std.specs.Prelude.{◌≡◌, IfOk, Some, false, map, slice_get, true};
ghost use Rattle.mc_cmd.specs.Pack.{loaded};
ghost use Rattle.mc_cmd.specs.Packing.{index_view, is_pack_namespace, pack_view};
ghost use Rattle.mc_cmd.specs.View.{cmd_view};
ghost use Rattle.mc_cmd.specs.Foreign.{first_own};
ghost use Rattle.app_words.specs.Arguments.{export_named as export_named_in};
ghost use Rattle.app_words.specs.Report.{acted, answer_of, called, called_found, called_with, is_dead};
ghost use Rattle.app_words.specs.Report.{other_done, report};
ghost use Rattle.app_words.specs.Lines.{busy_line, last_line as last_line_of};
ghost use Rattle.app_words.specs.View.{act_view, line_view};
ghost use Rattle.app_words.specs.WhereReport.{IsReport};
ghost use Rattle.mc_tick.specs.StateView.{IsTold, resting_state, state_of};
ghost use Rattle.mc_world.specs.WorldView.{seen};
ghost use Rattle.app_play.specs.Play.{IsPlayed, IsPlayedAs};
ghost use Rattle.app_play.specs.declared.fault.PlayFault.TheVariants as faults;
ghost use Rattle.app_play.specs.steps.Playing.{FitsExport, IsLocated, IsMade, IsPrepared, IsSaid, IsStep, IsStepped};
ghost use Rattle.app_play.specs.steps.Playing.{is_print, is_quiet, is_where as asks_where, printed as printed_text};

use crate::fault::{Cause, PlayFault};
use crate::locator::{Locator, Silent};
use app_report::{busy, dump, globals, last_line, memory, show};
use app_words::{Act, ForeignCmd, ScriptLine, arguments, export_named};
use io_dev::{Sink, WriteAnswer};
use mc_cmd::{Index, Pack};
use mc_engine::Engine;
use mc_nbt::{Memory, Text, Value};
use mc_tick::{Loaded, OtherRefusal, Resting, Resumed, StartRefusal};
use mc_world::World;
use std::alloc::Global;

/// The fault of a line of this number, for this cause.
pub fn refused(line: u64, cause: Cause) -> PlayFault
    ensures { result ≡ faults.Refused line cause }
{
    PlayFault::Refused { line, cause }
}

/// Writes a text to the output.
///
/// # Errors
///
/// - `Output` where the sink failed; a prefix of the text was then written.
/// - `Memory` where there was no memory; a prefix of the text was then written.
pub fn say<O: Sink>(out: &mut O, text: &str) -> Result<(), PlayFault>
    ensures { IsSaid text.now (O.state out.old) (O.state out.new) result }
{
    match out.write(text.as_bytes()) {
        Ok(()) => Ok(()),
        Err(WriteAnswer::Failed) => Err(PlayFault::Output),
        Err(WriteAnswer::Memory) => Err(PlayFault::Memory),
    }
}

/// Tells of a call that was left out, since the pack still runs.
///
/// # Errors
///
/// As `say`.
pub fn leave_out<O: Sink>(alloc: Global, out: &mut O) -> Result<(), PlayFault>
    ensures { IsSaid busy_line (O.state out.old) (O.state out.new) result }
{
    let line = busy(alloc)?;
    say(out, line.as_str())
}

/// The place of the first export of a name, and the values of the arguments for it, at the line of this number.
///
/// # Errors
///
/// - `Refused` where there is no export of the name, or else the arguments aren't those of its parameters.
/// - `Memory` where there is no room for the values.
pub fn prepared(
    alloc: Global,
    index: &Index,
    line: u64,
    name: &Text,
    args: &[i128],
) -> Result<(usize, Vec<Value>), PlayFault>
    ensures { IsPrepared (index_view index.now) line name.now args.now result }
{
    let Some((place, export)) = export_named(index, name) else {
        return Err(refused(line, Cause::NoSuchExport));
    };
    match arguments(alloc, &export.params, args)? {
        Some(values) => Ok((place, values)),
        None => Err(refused(line, Cause::WrongArguments)),
    }
}

// The same of the export of a pack where it stands.
fn prepared_of(
    alloc: Global,
    resting: &Resting,
    line: u64,
    name: &Text,
    args: &[i128],
) -> Result<(usize, Vec<Value>), PlayFault>
    ensures { IsPrepared (resting_state resting.now).pack.index line name.now args.now result }
{
    prepared(alloc, resting.play().index(), line, name, args)
}

// A call of the export at a place with values of its kinds, at the line of this number.
fn begin(resting: Resting, line: u64, place: usize, values: &[Value]) -> Result<Resumed, PlayFault>
    requires { FitsExport (slice_get (resting_state resting).pack.index.exports place) values.now }
    ensures { let s = resting_state resting in
        IsMade s (called_with s.pack s.standing place (Some values.now) (is_dead s.pack s.standing)) line result }
{
    match resting.call(place, values) {
        Ok(state) => Ok(state),
        Err(StartRefusal::Dead { state }) => {
            drop(state);
            Err(refused(line, Cause::InstanceIsDead))
        }
        Err(StartRefusal::NoExport { .. }) => unreachable!(),
        Err(StartRefusal::WrongArgs { .. }) => unreachable!(),
        Err(StartRefusal::Memory) => Err(PlayFault::Memory),
    }
}

// A call of the first export of a name, at the line of this number.
fn start(
    alloc: Global,
    resting: Resting,
    line: u64,
    name: &Text,
    args: &[i128],
) -> Result<Resumed, PlayFault>
    ensures { let s = resting_state resting in
        IsMade s (called_found s.pack s.standing args.now (export_named_in name.now s.pack.index.exports)) line result }
{
    match prepared_of(alloc, &resting, line, name, args) {
        Ok((place, values)) => begin(resting, line, place, &values),
        Err(fault) => {
            drop(resting);
            Err(fault)
        }
    }
}

// A call at the line of this number.
fn call<O: Sink>(
    alloc: Global,
    out: &mut O,
    state: Resumed,
    line: u64,
    name: &Text,
    args: &[i128],
) -> Result<Resumed, PlayFault>
    requires { IsTold state }
    ensures { let s = state_of state in
        IsStep s (called s.pack s.standing name.now args.now (answer_of s.pack s.standing)) line result
        (O.state out.old) (O.state out.new) }
{
    match state {
        Resumed::Working(working) => match leave_out(alloc, out) {
            Ok(()) => Ok(Resumed::Working(working)),
            Err(fault) => {
                drop(working);
                Err(fault)
            }
        },
        Resumed::Resting(resting) => start(alloc, resting, line, name, args),
    }
}

// A command of somebody else at the line of this number.
fn apply(state: Resumed, line: u64, cmd: &ForeignCmd) -> Result<Resumed, PlayFault>
    ensures { let s = state_of state in let c = cmd_view cmd.now in
        IsMade s (other_done s.pack s.standing c (first_own s.pack.index.ns c)) line result }
{
    match state.other(cmd.cmd()) {
        Ok(state) => Ok(state),
        Err(OtherRefusal::Own { name, state }) => {
            drop(state);
            Err(refused(line, Cause::Names(name)))
        }
        Err(OtherRefusal::NotForeign { .. }) => unreachable!(),
        Err(OtherRefusal::Memory) => Err(PlayFault::Memory),
    }
}

// An event that prints nothing, at the line of this number.
fn happen(state: Resumed, line: u64, act: &Act) -> Result<Resumed, PlayFault>
    requires { is_quiet (act_view act.now) ≡ true }
    ensures { let s = state_of state in IsMade s (acted s.pack (act_view act.now) s.standing) line result }
{
    match act {
        Act::Tick { budget } => Ok(state.tick(budget.number())?),
        Act::Ticks { count, budget } => Ok(state.tick_times(*count, budget.number())?),
        Act::Reload { budget } => Ok(state.reload(budget.number())?),
        Act::Other { cmd } => apply(state, line, cmd),
        _ => unreachable!(),
    }
}

/// What an act prints of what the pack of a namespace shows in a world.
///
/// # Errors
///
/// `Memory` where there is no room for the text.
pub fn printed(alloc: Global, world: &World, ns: &Text, act: &Act) -> Result<Text, Memory>
    requires prints { is_print (act_view act.now) ≡ true }
    requires namespace { is_pack_namespace ns.now ≡ true }
    ensures { IfOk result (λ t. t ≡ printed_text ns.now (seen world.now) (act_view act.now)) }
{
    match act {
        Act::Show => show(alloc, world, ns),
        Act::Globals => globals(alloc, world, ns),
        Act::Memory { at, len } => memory(alloc, world, ns, *at, len.number()),
        Act::Dump => dump(alloc, world, ns),
        _ => unreachable!(),
    }
}

// What an act prints of what a pack shows where it stands.
fn printed_of(alloc: Global, state: &Resumed, act: &Act) -> Result<Text, Memory>
    requires { is_print (act_view act.now) ≡ true }
    ensures { let s = state_of state.now in
        IfOk result (λ t. t ≡ printed_text s.pack.index.ns s.standing.world (act_view act.now)) }
{
    let played = state.play();
    printed(alloc, played.world(), &played.names().ns, act)
}

fn print<O: Sink>(alloc: Global, out: &mut O, state: &Resumed, act: &Act) -> Result<(), PlayFault>
    requires { is_print (act_view act.now) ≡ true }
    ensures { let s = state_of state.now in
        IsSaid (printed_text s.pack.index.ns s.standing.world (act_view act.now))
        (O.state out.old) (O.state out.new) result }
{
    let text = printed_of(alloc, state, act)?;
    say(out, text.as_str())
}

// Whether an act asks where the program is.
fn is_where(act: &Act) -> bool
    ensures { result ≡ asks_where (act_view act.now) }
{
    match act {
        Act::Inspect => true,
        _ => false,
    }
}

// What one line does that doesn't ask where the program is.
fn act<O: Sink>(
    alloc: Global,
    out: &mut O,
    state: Resumed,
    line: &ScriptLine,
) -> Result<Resumed, PlayFault>
    requires told { IsTold state }
    requires silent { asks_where (act_view line.now.act) ≡ false }
    ensures { let s = state_of state in
        IsStep s (acted s.pack (act_view line.now.act) s.standing) line.now.line result
        (O.state out.old) (O.state out.new) }
{
    match &line.act {
        Act::Call { name, args } => call(alloc, out, state, line.line, name, args),
        Act::Show | Act::Globals | Act::Memory { .. } | Act::Dump => {
            match print(alloc, out, &state, &line.act) {
                Ok(()) => Ok(state),
                Err(fault) => {
                    drop(state);
                    Err(fault)
                }
            }
        }
        Act::Tick { .. } | Act::Ticks { .. } | Act::Reload { .. } | Act::Other { .. } => {
            happen(state, line.line, &line.act)
        }
        Act::Inspect => unreachable!(),
    }
}

// Where the program is, as the locator tells it.
fn locate<O: Sink, L: Locator>(
    alloc: Global,
    out: &mut O,
    state: &Resumed,
    locator: &L,
) -> Result<(), PlayFault>
    ensures { IsLocated (L.may_tell locator.now) (state_of state.now) (O.state out.old) (O.state out.new) result }
{
    let played = state.play();
    let text = locator.locate(alloc, played.world(), &played.names().ns)?;
    say(out, text.as_str())
}

// What one line does.
fn step<O: Sink, L: Locator>(
    alloc: Global,
    out: &mut O,
    state: Resumed,
    line: &ScriptLine,
    locator: &L,
) -> Result<Resumed, PlayFault>
    requires { IsTold state }
    ensures { IsStepped (L.may_tell locator.now) (state_of state) (act_view line.now.act) line.now.line result
        (O.state out.old) (O.state out.new) }
{
    if !is_where(&line.act) {
        return act(alloc, out, state, line);
    }
    match locate(alloc, out, &state, locator) {
        Ok(()) => Ok(state),
        Err(fault) => {
            drop(state);
            Err(fault)
        }
    }
}

/// Tells the last line, of the ticks and of the weight that was used.
///
/// # Errors
///
/// As `say`.
pub fn tell_counts<O: Sink>(
    alloc: Global,
    out: &mut O,
    ticks: u128,
    used: u128,
) -> Result<(), PlayFault>
    ensures { IsSaid (last_line_of ticks used) (O.state out.old) (O.state out.new) result }
{
    let text = last_line(alloc, ticks, used)?;
    say(out, text.as_str())
}

/// Plays the lines of a script over a pack, and writes what they print, with what the locator tells where a line asks
/// where the program is.
///
/// # Errors
///
/// As `play`.
pub fn play_with<O: Sink, L: Locator>(
    alloc: Global,
    out: &mut O,
    pack: Pack,
    lines: &[ScriptLine],
    locator: &L,
) -> Result<(), PlayFault>
    ensures { let p = pack_view pack in
        IsPlayedAs (IsReport (L.may_tell locator.now) p (map line_view lines.now) (loaded p))
        result (O.state out.old) (O.state out.new) }
{
    let engine = Engine::load(alloc, pack)?;
    let mut state = Loaded::new(alloc, engine).boot()?;
    for line in lines {
        state = step(alloc, out, state, line, locator)?;
    }
    let played = state.play();
    let ticks = played.ticks();
    let used = played.used();
    drop(state);
    tell_counts(alloc, out, ticks, used)
}

/// Plays the lines of a script over a pack, and writes what they print. A line that asks where the program is prints
/// nothing.
///
/// # Errors
///
/// - `Output` where the sink failed; a prefix of what the lines print was then written.
/// - `Refused` at the first line that is refused; what stands before it was written.
/// - `Memory` where there was no memory; a prefix of what the lines print was then written.
pub fn play<O: Sink>(
    alloc: Global,
    out: &mut O,
    pack: Pack,
    lines: &[ScriptLine],
) -> Result<(), PlayFault>
    ensures { IsPlayed (report (pack_view pack) (map line_view lines.now) (loaded (pack_view pack)))
        result (O.state out.old) (O.state out.new) }
{
    play_with(alloc, out, pack, lines, &Silent)
}
