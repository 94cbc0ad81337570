//! The five lines that tell a workload.

ghost use Rattle.std.specs.Prelude.{◌≡◌, IfOk, length};
ghost use Rattle.mc_cmd.specs.Packing.{pack_view};
ghost use Rattle.app_words.specs.Lines as report;
ghost use Rattle.app_words.specs.Report.{answer_of};
ghost use Rattle.mc_tick.specs.StateView.{state_of};
ghost use Rattle.app_workload.specs.Reduced.{HasMain};
ghost use Rattle.app_workload.specs.Told.{IsWorkloadText};
ghost use Rattle.app_workload.specs.steps.Telling.{TellsPlay, TellsStanding};

use crate::playing::play_out;
use crate::reducing::reduced;
use crate::texts::{five_lines, reduced_line};
use app_report::{last_line, show};
use mc_cmd::Pack;
use mc_engine::Engine;
use mc_nbt::{Memory, Text};
use mc_tick::{Loaded, Resumed};
use std::alloc::Global;
use wm_valid::Typed;

/// What is told of the play of a pack.
#[derive(Drop)]
pub(crate) struct Played {
    /// What the pack answers in the end.
    pub(crate) answer: Text,
    /// The ticks and the weight that the play took.
    pub(crate) counts: Text,
}

// What the pack answers.
fn played_line(alloc: Global, state: &Resumed) -> Result<Text, Memory>
    ensures { let s = state_of state.now in IfOk result (λ t. t ≡ report.shown (answer_of s.pack s.standing)) }
{
    let played = state.play();
    let world = played.world();
    let ns = &played.names().ns;
    show(alloc, world, ns)
}

// The line of the ticks and of the weight that the play took.
fn counts_line(alloc: Global, state: &Resumed) -> Result<Text, Memory>
    ensures { let s = (state_of state.now).standing in IfOk result (λ t. t ≡ report.last_line s.ticks s.used) }
{
    let played = state.play();
    let ticks = played.ticks();
    let used = played.used();
    last_line(alloc, ticks, used)
}

// What is told of a play.
fn played_lines(alloc: Global, state: &Resumed) -> Result<Played, Memory>
    ensures { let s = state_of state.now in IfOk result (TellsStanding s.pack s.standing) }
{
    let answer = played_line(alloc, state)?;
    let counts = counts_line(alloc, state)?;
    Ok(Played { answer, counts })
}

// What is told of the play of a pack.
fn play_pack(alloc: Global, pack: Pack) -> Result<Played, Memory>
    ensures { IfOk result (TellsPlay (pack_view pack)) }
{
    let engine = Engine::load(alloc, pack)?;
    let booted = Loaded::new(alloc, engine).boot()?;
    let state = play_out(booted)?;
    let told = played_lines(alloc, &state);
    drop(state);
    told
}

// How many functions a module has.
fn function_count(typed: &Typed) -> usize
    ensures { result ≡ length typed.now.funcs }
{
    typed.module().funcs.len()
}

/// The five lines that tell a workload: how many bytes and functions it has, what its pack answers in the end, what
/// comes of its reduction, and the ticks and the weight that the play took.
///
/// The pack is loaded and has ticks of the budget 65,536 as long as it runs, at most 1,000,000. Where it doesn't run
/// then, `main` is called, the first export, and has as many ticks; a call that is refused is left out. The reduction
/// of the module's `main` makes at most 100,000,000 steps.
///
/// # Errors
///
/// `Memory` where there is no room for the play, for the reduction or for the lines.
pub fn workload_lines(
    alloc: Global,
    bytes: usize,
    typed: &Typed,
    pack: Pack,
) -> Result<Text, Memory>
    requires { HasMain typed.now }
    ensures { IfOk result (λ t. IsWorkloadText bytes (length typed.now.funcs) typed.now (pack_view pack) t) }
{
    let played = play_pack(alloc, pack)?;
    let moved = reduced(alloc, typed)?;
    let reduction = reduced_line(alloc, moved)?;
    let functions = function_count(typed);
    five_lines(
        alloc,
        bytes,
        functions,
        &played.answer,
        &reduction,
        &played.counts,
    )
}
