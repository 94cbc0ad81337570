//! The lines of a function's file.

ghost use Rattle.std.specs.Prelude.{◌≡◌, IfOk, IsSome, is_some, map, nat_eq, option_map};
ghost use Rattle.std.specs.List.{slice_split};
ghost use Rattle.mc_cmd.specs.Grammar.{line_said};
ghost use Rattle.mc_cmd.specs.Lines.{file_text, without_empty_end};
ghost use Rattle.pk_files.specs.steps.Reading.{SaidBy};

use mc_nbt::{Memory, Text, Texts};
use mc_parse::{ParseFault, parse};
use std::alloc::Global;

/// The lines of a file.
#[derive(Drop)]
pub enum Lines {
    /// Each says something.
    Read(Texts),
    /// The line of this number is the first that says nothing.
    Bad(u64),
}

/// The bytes of a file of these lines.
pub fn file_of(alloc: Global, lines: &Texts) -> Result<Vec<u8>, Memory>
    ensures { IfOk result (λ bytes. bytes.items ≡ file_text lines.now) }
{
    let mut bytes = Vec::new(alloc);
    for line in lines.as_slice() {
        bytes.extend_from_slice(line.as_bytes())?;
        bytes.push(b'\n')?;
    }
    Ok(bytes)
}

// The bytes, divided at line feeds.
fn texts_of(alloc: Global, bytes: &[u8]) -> Result<Vec<&[u8]>, Memory>
    ensures { IfOk result (λ v. map (λ t. t.now) v.items ≡ slice_split (λ b. nat_eq b 10) bytes.now) }
{
    Ok(bytes.split(|b| *b == b'\n').collect(alloc)?)
}

// The texts without the last one, where that is empty.
fn without_empty<'a, 'b>(texts: &'b [&'a [u8]]) -> &'b [&'a [u8]]
    ensures { map (λ t. t.now) result.now ≡ without_empty_end (map (λ t. t.now) texts.now) }
{
    match texts {
        [front @ .., last] if last.is_empty() => front,
        _ => texts,
    }
}

// The text of a line, which is UTF-8.
fn text_of(alloc: Global, bytes: &[u8]) -> Result<Text, Memory>
    requires { IsSome (line_said bytes.now) }
    ensures { IfOk result (λ t. t ≡ bytes.now) }
{
    match str::from_utf8(bytes) {
        Ok(text) => Text::new(alloc, text),
        Err(_) => unreachable!(),
    }
}

// Whether the bytes are a line.
fn is_line(alloc: Global, bytes: &[u8]) -> Result<bool, Memory>
    ensures { IfOk result (λ said. said ≡ is_some (line_said bytes.now)) }
{
    match parse(alloc, bytes) {
        Ok(line) => {
            drop(line);
            Ok(true)
        }
        Err(ParseFault::TooLong) => Ok(false),
        Err(ParseFault::NotInGrammar) => Ok(false),
        Err(ParseFault::Memory) => Err(Memory),
    }
}

// The bytes as a text, if they are a line.
#[tactic(auto, using(crate::proofs::LinesLemmas::some_line, crate::proofs::LinesLemmas::no_line))]
fn line_text(alloc: Global, bytes: &[u8]) -> Result<Option<Text>, Memory>
    ensures { IfOk result (λ o. o ≡ option_map (λ _. bytes.now) (line_said bytes.now)) }
{
    if !is_line(alloc, bytes)? {
        return Ok(None);
    }
    let text = text_of(alloc, bytes)?;
    Ok(Some(text))
}

/// The lines of a file.
pub fn lines_of(alloc: Global, bytes: &[u8]) -> Result<Lines, Memory>
    ensures { IfOk result (λ lines. SaidBy lines bytes.now) }
{
    let texts = texts_of(alloc, bytes)?;
    let mut lines = Texts::new(alloc);
    for (i, text) in without_empty(&texts).iter().enumerate() {
        match line_text(alloc, text)? {
            Some(line) => lines.push(line)?,
            None => return Ok(Lines::Bad(i as u64 + 1)),
        }
    }
    Ok(Lines::Read(lines))
}
