//! Scripts from text.

ghost use Rattle.std.specs.Prelude.{◌≡◌, ◌==◌, ◌≤◌, nat_le, nat_eq, IfOk, Option, Some, None, is_some, map, codes};
ghost use Rattle.std.specs.Prelude.{option_map, option_and_then};
ghost use Rattle.std.specs.List.{list_all, slice_split};
ghost use Rattle.std.specs.Str.{bytes_eq};
ghost use Rattle.mc_cmd.specs.Form.{spaced, strip, word};
ghost use Rattle.mc_cmd.specs.Word.{is_namespace as namespace};
ghost use Rattle.mc_cmd.specs.View.{cmd_view, line_view};
ghost use Rattle.mc_cmd.specs.declared.TheConstants.{BMIN as least_budget};
ghost use Rattle.app_words.specs.Script.{act_read, arguments_read, budget, called_words, count, does_nothing};
ghost use Rattle.app_words.specs.Script.{event_read, export_name, foreign, foreign_said, is_low, is_visible};
ghost use Rattle.app_words.specs.Script.{call_form, memory_form, other_form, print_read, reload_form, tick_form};
ghost use Rattle.app_words.specs.Script.{low_budget, ticks_form, turn_read};
ghost use Rattle.app_words.specs.SharedScript.{in_form, own_read, shared_read};
ghost use Rattle.app_words.specs.View.{ReadsSaid, ReadsScript, ReadsSharedScript, ReadsWhereScript, act_view};
ghost use Rattle.app_words.specs.View.{shared_act_view};
ghost use Rattle.app_words.specs.WhereScript.{where_read};
ghost use Rattle.app_words.specs.steps.ScriptReading.{act_by, said_by};
ghost use Rattle.app_words.specs.declared.reading.ScriptFault.TheVariants as faults;

use crate::act::{Act, ByteCount, ForeignCmd, ScriptLine, SharedAct, SharedLine};
use crate::budget::Budget;
use crate::number::{
    is_low_budget, read_argument, read_budget, read_byte_count, read_count, read_u32,
};
use mc_cmd::{BMIN, Line, cut, is_namespace, strip_front};
use mc_nbt::{Memory, Text};
use mc_parse::{ParseFault, parse};
use std::alloc::{AllocFailed, Global};

/// Why bytes are refused as a script.
#[derive(Clone, Copy, Debug, PartialEq, Eq)]
pub enum ScriptFault {
    /// The first line that is no script line, by its number from 1. It is `low` where it would be one
    /// but for a budget below the least one.
    Line { line: u64, low: bool },
    /// There was no room for the lines.
    Memory,
}

impl From<Memory> for ScriptFault {
    ghost from_gives = { λ _ e. e ≡ faults.Memory };

    fn from(_: Memory) -> Self {
        ScriptFault::Memory
    }
}

impl<T: Drop> From<AllocFailed<T>> for ScriptFault {
    ghost from_gives = { λ _ e. e ≡ faults.Memory };

    fn from(_: AllocFailed<T>) -> Self {
        ScriptFault::Memory
    }
}

fn has_no_control(w: &[u8]) -> bool
    ensures { result ≡ list_all (λ b. nat_le 33 b) w.now }
{
    w.iter().all(|b| *b >= 33)
}

fn is_visible_word(w: &[u8]) -> bool
    ensures { result ≡ is_visible w.now }
{
    w.len() >= 1 && has_no_control(w)
}

fn read_name(alloc: Global, w: &[u8]) -> Result<Option<Text>, Memory>
    ensures { IfOk result (λ o. o ≡ export_name.read w.now) }
{
    let Ok(name) = std::str::from_utf8(w) else {
        return Ok(None);
    };
    if !is_visible_word(w) {
        return Ok(None);
    }
    Ok(Some(Text::new(alloc, name)?))
}

fn read_arguments(alloc: Global, words: &[&[u8]]) -> Result<Option<Vec<i128>>, Memory>
    ensures { IfOk result (λ o. option_map (λ v. v.items) o ≡ arguments_read (map (λ w. w.now) words.now)) }
{
    let mut args = Vec::new(alloc);
    for word in words {
        match read_argument(word) {
            Some(arg) => args.push(arg)?,
            None => return Ok(None),
        }
    }
    Ok(Some(args))
}

// The texts between separators.
fn texts_between(alloc: Global, bytes: &[u8], separator: u8) -> Result<Vec<&[u8]>, Memory>
    ensures { IfOk result (λ v. map (λ t. t.now) v.items ≡ slice_split (λ b. nat_eq b separator) bytes.now) }
{
    Ok(bytes.split(|b| *b == separator).collect(alloc)?)
}

// A name and arguments.
fn read_called(alloc: Global, words: &[&[u8]]) -> Result<Option<(Text, Vec<i128>)>, Memory>
    ensures { IfOk result (λ o. option_map (λ p. (p.0, p.1.items)) o ≡ called_words (map (λ w. w.now) words.now)) }
{
    let [first, rest @ ..] = words else {
        return Ok(None);
    };
    let Some(name) = read_name(alloc, first)? else {
        return Ok(None);
    };
    match read_arguments(alloc, rest)? {
        Some(args) => Ok(Some((name, args))),
        None => Ok(None),
    }
}

fn read_call(alloc: Global, t: &[u8]) -> Result<Option<(Text, Vec<i128>)>, Memory>
    ensures { IfOk result (λ o. option_map (λ p. (p.0, p.1.items)) o ≡ call_form.read t.now) }
{
    let Some(rest) = strip_front(t, b"call ") else {
        return Ok(None);
    };
    let words = texts_between(alloc, rest, b' ')?;
    let read = read_called(alloc, words.as_slice())?;
    Ok(read)
}

fn read_tick(t: &[u8], least: u32) -> Option<Budget>
    requires { least_budget ≤ least }
    ensures { result ≡ (tick_form (budget least)).read t.now }
{
    match strip_front(t, b"tick ") {
        Some(number) => read_budget(number, least),
        None => None,
    }
}

// The count of a line `ticks`, and what stands behind it.
fn cut_ticks(t: &[u8]) -> Option<(u32, &[u8])>
    ensures { option_map (λ p. (p.0, p.1.now)) result
        ≡ option_and_then (spaced count).read (strip (codes "ticks ") t.now) }
{
    let numbers = strip_front(t, b"ticks ")?;
    let (first, second) = cut(numbers, b' ')?;
    match read_count(first) {
        Some(count) => Some((count, second)),
        None => None,
    }
}

fn read_ticks(t: &[u8], least: u32) -> Option<(u32, Budget)>
    requires { least_budget ≤ least }
    ensures { result ≡ (ticks_form (budget least)).read t.now }
{
    let (count, number) = cut_ticks(t)?;
    match read_budget(number, least) {
        Some(budget) => Some((count, budget)),
        None => None,
    }
}

fn read_reload(t: &[u8], least: u32) -> Option<Budget>
    requires { least_budget ≤ least }
    ensures { result ≡ (reload_form (budget least)).read t.now }
{
    match strip_front(t, b"reload ") {
        Some(number) => read_budget(number, least),
        None => None,
    }
}

fn read_memory(t: &[u8]) -> Option<(u32, ByteCount)>
    ensures { result ≡ memory_form.read t.now }
{
    let numbers = strip_front(t, b"memory ")?;
    let (first, second) = cut(numbers, b' ')?;
    let at = read_u32(first)?;
    match read_byte_count(second) {
        Some(len) => Some((at, len)),
        None => None,
    }
}

fn foreign_of(line: Line) -> Option<ForeignCmd>
    ensures { option_map cmd_view result ≡ foreign_said (Some (line_view line)) }
{
    match line {
        Line::Plain(cmd) => ForeignCmd::new(cmd),
        Line::Nothing | Line::Macro(_) => None,
    }
}

// The command of the grammar that the bytes say, where it is one of somebody else.
fn read_foreign(alloc: Global, t: &[u8]) -> Result<Option<ForeignCmd>, Memory>
    ensures { IfOk result (λ o. option_map cmd_view o ≡ foreign.read t.now) }
{
    match parse(alloc, t) {
        Ok(line) => Ok(foreign_of(line)),
        Err(ParseFault::Memory) => Err(Memory),
        Err(ParseFault::TooLong) => Ok(None),
        Err(ParseFault::NotInGrammar) => Ok(None),
    }
}

fn read_other(alloc: Global, t: &[u8]) -> Result<Option<ForeignCmd>, Memory>
    ensures { IfOk result (λ o. option_map cmd_view o ≡ other_form.read t.now) }
{
    match strip_front(t, b"other ") {
        Some(command) => read_foreign(alloc, command),
        None => Ok(None),
    }
}

// What a line does that makes events and calls nothing.
fn read_turn(alloc: Global, t: &[u8], least: u32) -> Result<Option<Act>, Memory>
    requires { least_budget ≤ least }
    ensures { IfOk result (λ o. option_map act_view o ≡ turn_read least t.now) }
{
    if let Some(budget) = read_tick(t, least) {
        return Ok(Some(Act::Tick { budget }));
    }
    if let Some((count, budget)) = read_ticks(t, least) {
        return Ok(Some(Act::Ticks { count, budget }));
    }
    if let Some(budget) = read_reload(t, least) {
        return Ok(Some(Act::Reload { budget }));
    }
    match read_other(alloc, t)? {
        Some(cmd) => Ok(Some(Act::Other { cmd })),
        None => Ok(None),
    }
}

// What a line does that makes events.
fn read_event(alloc: Global, t: &[u8]) -> Result<Option<Act>, Memory>
    ensures { IfOk result (λ o. option_map act_view o ≡ event_read least_budget t.now) }
{
    if let Some((name, args)) = read_call(alloc, t)? {
        return Ok(Some(Act::Call { name, args }));
    }
    read_turn(alloc, t, BMIN)
}

fn is_text(t: &[u8], text: &[u8]) -> bool
    ensures { result ≡ bytes_eq text.now t.now }
{
    text == t
}

// What a line does that prints.
fn read_print(t: &[u8]) -> Option<Act>
    ensures { option_map act_view result ≡ print_read t.now }
{
    if is_text(t, b"show") {
        return Some(Act::Show);
    }
    if is_text(t, b"globals") {
        return Some(Act::Globals);
    }
    if let Some((at, len)) = read_memory(t) {
        return Some(Act::Memory { at, len });
    }
    if is_text(t, b"dump") {
        return Some(Act::Dump);
    }
    None
}

fn read_act(alloc: Global, t: &[u8]) -> Result<Option<Act>, Memory>
    ensures { IfOk result (λ o. option_map act_view o ≡ act_read least_budget t.now) }
{
    match read_event(alloc, t)? {
        Some(act) => Ok(Some(act)),
        None => Ok(read_print(t)),
    }
}

// What a line does that may ask where the program is.
fn read_where(alloc: Global, t: &[u8]) -> Result<Option<Act>, Memory>
    ensures { IfOk result (λ o. option_map act_view o ≡ where_read least_budget t.now) }
{
    if let Some(act) = read_act(alloc, t)? {
        return Ok(Some(act));
    }
    if is_text(t, b"where") {
        return Ok(Some(Act::Inspect));
    }
    Ok(None)
}

// What a line does, by whether it may ask where the program is.
fn read_by(alloc: Global, t: &[u8], asks: bool) -> Result<Option<Act>, Memory>
    ensures { IfOk result (λ o. option_map act_view o ≡ act_by asks t.now) }
{
    if asks {
        read_where(alloc, t)
    } else {
        read_act(alloc, t)
    }
}

// What a line does that is asked of one program, without its namespace.
fn read_own(alloc: Global, t: &[u8]) -> Result<Option<Act>, Memory>
    ensures { IfOk result (λ o. option_map act_view o ≡ own_read t.now) }
{
    match read_call(alloc, t)? {
        Some((name, args)) => Ok(Some(Act::Call { name, args })),
        None => Ok(read_print(t)),
    }
}

// The namespace that the bytes are.
fn read_namespace(alloc: Global, w: &[u8]) -> Result<Option<Text>, Memory>
    ensures { IfOk result (λ o. o ≡ (word namespace).read w.now) }
{
    if !is_namespace(w) {
        return Ok(None);
    }
    match std::str::from_utf8(w) {
        Ok(name) => Ok(Some(Text::new(alloc, name)?)),
        Err(_) => unreachable!(),
    }
}

// The namespace and the act of a line that says which program is asked.
fn read_within(alloc: Global, t: &[u8]) -> Result<Option<(Text, Act)>, Memory>
    ensures { IfOk result (λ o. option_map (λ p. (p.0, act_view p.1)) o ≡ in_form.read t.now) }
{
    let Some(named) = strip_front(t, b"in ") else {
        return Ok(None);
    };
    let Some((first, rest)) = cut(named, b' ') else {
        return Ok(None);
    };
    let Some(ns) = read_namespace(alloc, first)? else {
        return Ok(None);
    };
    match read_own(alloc, rest)? {
        Some(act) => Ok(Some((ns, act))),
        None => Ok(None),
    }
}

// What a line of a script over several programs does.
fn read_shared(alloc: Global, t: &[u8], count: u32) -> Result<Option<SharedAct>, Memory>
    requires least { 1 ≤ count }
    requires most { count ≤ 16 }
    ensures { IfOk result (λ o. option_map shared_act_view o ≡ shared_read count t.now) }
{
    if let Some(act) = read_turn(alloc, t, BMIN * count)? {
        return Ok(Some(SharedAct::ForAll { act }));
    }
    match read_within(alloc, t)? {
        Some((ns, act)) => Ok(Some(SharedAct::Within { ns, act })),
        None => Ok(None),
    }
}

fn is_low_tick(t: &[u8], least: u32) -> bool
    ensures { result ≡ is_some ((tick_form (low_budget least)).read t.now) }
{
    match strip_front(t, b"tick ") {
        Some(number) => is_low_budget(number, least),
        None => false,
    }
}

fn is_low_ticks(t: &[u8], least: u32) -> bool
    ensures { result ≡ is_some ((ticks_form (low_budget least)).read t.now) }
{
    match cut_ticks(t) {
        Some((_, number)) => is_low_budget(number, least),
        None => false,
    }
}

fn is_low_reload(t: &[u8], least: u32) -> bool
    ensures { result ≡ is_some ((reload_form (low_budget least)).read t.now) }
{
    match strip_front(t, b"reload ") {
        Some(number) => is_low_budget(number, least),
        None => false,
    }
}

// Whether the line would be a script line but for a budget below the least one.
fn is_low_line(t: &[u8], least: u32) -> bool
    ensures { result ≡ is_low least t.now }
{
    is_low_tick(t, least) || is_low_ticks(t, least) || is_low_reload(t, least)
}

fn is_silent(t: &[u8]) -> bool
    ensures { result ≡ does_nothing t.now }
{
    match t {
        [] => true,
        [first, ..] => *first == b'#',
    }
}

// The lines of a script, which may ask where the program is or may not.
fn read_lines(alloc: Global, bytes: &[u8], asks: bool) -> Result<Vec<ScriptLine>, ScriptFault>
    ensures { ReadsSaid (said_by asks bytes.now) result }
{
    let texts = texts_between(alloc, bytes, b'\n')?;
    let mut lines = Vec::new(alloc);
    for (i, text) in texts.as_slice().iter().enumerate() {
        if is_silent(text) {
            continue;
        }
        let line = i as u64 + 1;
        match read_by(alloc, text, asks)? {
            Some(act) => lines.push(ScriptLine { line, act })?,
            None => {
                let low = is_low_line(text, BMIN);
                return Err(ScriptFault::Line { line, low });
            }
        }
    }
    Ok(lines)
}

/// The lines of a script that do something.
///
/// Lines end with a line feed, which the last one may lack. Empty lines and lines that begin with `#`
/// do nothing. The words of the others are divided by one space, and numbers are decimal digits
/// without leading zeros.
///
/// # Errors
///
/// - `Line` with the number of the first line that is no script line.
/// - `Memory` where there is no room for the lines.
pub fn script(alloc: Global, bytes: &[u8]) -> Result<Vec<ScriptLine>, ScriptFault>
    ensures { ReadsScript bytes.now result }
{
    read_lines(alloc, bytes, false)
}

/// The lines of a script that may ask where the program is, that do something.
///
/// It is read as `script` reads, but that `where` is a line besides.
///
/// # Errors
///
/// As `script`.
pub fn script_where(alloc: Global, bytes: &[u8]) -> Result<Vec<ScriptLine>, ScriptFault>
    ensures { ReadsWhereScript bytes.now result }
{
    read_lines(alloc, bytes, true)
}

/// The lines of a script over so many programs that do something.
///
/// It is read as `script` reads, but that a budget is at least `BMIN` times their number, and that a call, and each
/// line that prints, has `in NS ` before it.
///
/// # Errors
///
/// As `script`.
pub fn script_multi(alloc: Global, bytes: &[u8], count: u32) -> Result<Vec<SharedLine>, ScriptFault>
    requires least { 1 ≤ count }
    requires most { count ≤ 16 }
    ensures { ReadsSharedScript count bytes.now result }
{
    let texts = texts_between(alloc, bytes, b'\n')?;
    let mut lines = Vec::new(alloc);
    for (i, text) in texts.as_slice().iter().enumerate() {
        if is_silent(text) {
            continue;
        }
        let line = i as u64 + 1;
        match read_shared(alloc, text, count)? {
            Some(act) => lines.push(SharedLine { line, act })?,
            None => {
                let low = is_low_line(text, BMIN * count);
                return Err(ScriptFault::Line { line, low });
            }
        }
    }
    Ok(lines)
}
