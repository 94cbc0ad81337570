// What functions of a pack weigh with all that they run.

ghost use Rattle.std.specs.Prelude.{◌≡◌, ◌≤◌, IfNone, IfOk, IfSome, OnOk, List, Some, ℕ, if◌then◌else◌, option_map};
ghost use Rattle.std.specs.Str.{bytes_eq};
ghost use Rattle.mc_cmd.specs.Chain.{line_of};
ghost use Rattle.mc_cmd.specs.Layout.{full_name};
ghost use Rattle.mc_cmd.specs.Packing.{pack_view};
ghost use Rattle.mc_cmd.specs.View.{line_view, simple_view};
ghost use Rattle.mc_cmd.specs.declared.TheConstants as constants;
ghost use Rattle.mc_world.specs.TextMap.{text_get};
ghost use Rattle.mc_cmd.specs.Weight.{simple_runs};
ghost use Rattle.app_report.specs.Costs.{IsLight, line_runs, static_weight};
ghost use Rattle.app_report.specs.steps.Weighing.{AreKnown, IsStep};

use mc_cmd::{Line, Pack, Simple, weight};
use mc_nbt::{Memory, Text, Texts};
use mc_parse::{ParseFault, parse};
use mc_world::run_of;
use std::alloc::Global;
use std::collections::BTreeMap;

/// The weights of functions that are known so far, by their full names.
pub(crate) type Known = BTreeMap<Text, u32>;

fn simple_call(simple: &Simple) -> Option<&Text>
    ensures { option_map (λ t. t.now) result ≡ simple_runs (simple_view simple.now) }
{
    match simple {
        Simple::Function { name } => Some(name),
        Simple::FunctionWith { name, .. } => Some(name),
        _ => None,
    }
}

// The full name of the function that a line runs, if it runs one.
fn called_by(line: &Line) -> Option<&Text>
    ensures { option_map (λ t. t.now) result ≡ line_runs (line_view line.now) }
{
    match line {
        Line::Plain(cmd) => simple_call(run_of(cmd)),
        Line::Nothing | Line::Macro(_) => None,
    }
}

// What a line weighs alone, and the full name of the function that it runs, if it runs one.
#[derive(Drop)]
struct Step {
    weight: u32,
    called: Option<Text>,
}

fn copy_of(name: Option<&Text>) -> Result<Option<Text>, Memory>
    ensures { IfOk result (λ o. o ≡ option_map (λ t. t.now) name.entry) }
{
    match name {
        Some(name) => Ok(Some(name.clone()?)),
        None => Ok(None),
    }
}

fn step_of(line: &Line) -> Result<Step, Memory>
    ensures { IfOk result (IsStep (line_view line.now)) }
{
    let called = copy_of(called_by(line))?;
    Ok(Step {
        weight: weight(line),
        called,
    })
}

// A text that says no line does nothing.
fn read_step(alloc: Global, text: &Text) -> Result<Step, Memory>
    ensures { IfOk result (IsStep (line_of text.now)) }
{
    match parse(alloc, text.as_bytes()) {
        Ok(line) => step_of(&line),
        Err(ParseFault::TooLong) => step_of(&Line::Nothing),
        Err(ParseFault::NotInGrammar) => step_of(&Line::Nothing),
        Err(ParseFault::Memory) => Err(Memory),
    }
}

// The name of a function of the namespace, by its full name.
fn name_in<'a>(ns: &str, full: &'a str) -> Option<&'a str>
    ensures some { IfSome result (λ name. full.now ≡ full_name ns.now name.now) }
    ensures none { IfNone result ((name : List ℕ) → ¬ (full.now ≡ full_name ns.now name)) }
{
    let rest = full.strip_prefix(ns)?;
    rest.strip_prefix(':')
}

// The lines of the function of this full name, if the pack has it.
fn lines_of<'a>(alloc: Global, pack: &'a Pack, full: &Text) -> Result<Option<&'a Texts>, Memory>
    ensures { IfOk result (λ o. option_map (λ ts. ts.now) o ≡ (pack_view pack.entry.now).functions full.now) }
{
    match name_in(pack.index().ns.as_str(), full.as_str()) {
        Some(name) => Ok(pack.lines(&Text::new(alloc, name)?)),
        None => Ok(None),
    }
}

fn note(known: &mut Known, full: &Text, weight: u32) -> Result<(), Memory>
    ensures { OnOk result ((f : List ℕ)
        → text_get known.new f ≡ (if bytes_eq full.now f then Some weight else text_get known.old f)) }
{
    known.insert(full.clone()?, weight)?;
    Ok(())
}

/// The static weight of the function of this full name, which is at most `most`. What is found on the way is kept, so
/// that the lines of each function are read once.
pub(crate) fn weigh(
    alloc: Global,
    pack: &Pack,
    full: &Text,
    most: u32,
    known: &mut Known,
) -> Result<u32, Memory>
    requires light { IsLight most (pack_view pack.now).functions full.now }
    requires bound { most ≤ constants.PIECE }
    requires known { AreKnown (pack_view pack.now).functions known.old }
    ensures weight { IfOk result (λ w. static_weight (pack_view pack.now).functions full.now ≡ Some w) }
    ensures known { OnOk result (AreKnown (pack_view pack.now).functions known.new) }
{
    if let Some(weight) = known.get(full) {
        return Ok(*weight);
    }
    let Some(lines) = lines_of(alloc, pack, full)? else {
        unreachable!()
    };
    let mut sum = 0;
    for text in lines.as_slice() {
        let step = read_step(alloc, text)?;
        sum += step.weight;
        if let Some(called) = &step.called {
            sum += weigh(alloc, pack, called, most - 1, known)?;
        }
    }
    note(known, full, sum)?;
    Ok(sum)
}
