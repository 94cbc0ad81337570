// Whether the text of a line is tidy.
ghost use Rattle.std.specs.Prelude.{◌≡◌, IfOk, option_map};
ghost use Rattle.mc_cmd.specs.Form.{lacks};
ghost use Rattle.mc_cmd.specs.Grammar.{line_said};
ghost use Rattle.mc_cmd.specs.Tidy as spec;
ghost use Rattle.mc_cmd.specs.View.{line_view, pattern_view};
ghost use Rattle.mc_tidy.specs.First.{IsFirstUntidy};

use crate::command::is_tidy_command;
use mc_cmd::{Line, PatternPart};
use mc_layout::LayoutNames;
use mc_nbt::{Memory, Text, Texts};
use mc_parse::{ParseFault, parse};
use std::alloc::Global;

fn has_no_quote(text: &[u8]) -> bool
    ensures { result ≡ lacks 34 text.now }
{
    for b in text {
        if *b == b'"' {
            return false;
        }
    }
    true
}

// The line that a text says, if it says one.
fn said(alloc: Global, text: &[u8]) -> Result<Option<Line>, Memory>
    ensures { IfOk result (λ o. option_map line_view o ≡ line_said text.now) }
{
    match parse(alloc, text) {
        Ok(line) => Ok(Some(line)),
        Err(ParseFault::TooLong) => Ok(None),
        Err(ParseFault::NotInGrammar) => Ok(None),
        Err(ParseFault::Memory) => Err(Memory),
    }
}

// The text of the parts of a pattern with this digit for each name.
fn filled_by(alloc: Global, parts: &[PatternPart], digit: &str) -> Result<Text, Memory>
    ensures { IfOk result (λ t. t ≡ spec.parts_by digit.now (pattern_view parts.now)) }
{
    let mut out = String::new(alloc);
    for part in parts {
        match part {
            PatternPart::Literal(text) => out.push_str(text.as_str())?,
            PatternPart::Name(_) => out.push_str(digit)?,
        }
    }
    Ok(Text::from(out))
}

fn says_tidy(line: Option<Line>, names: &LayoutNames) -> bool
    ensures { result ≡ spec.says_tidy names.now.ns (option_map line_view line) }
{
    match line {
        None => false,
        Some(Line::Nothing) => true,
        Some(Line::Plain(cmd)) => is_tidy_command(&cmd, names),
        Some(Line::Macro(_)) => false,
    }
}

// Whether the line says nothing outside the namespace with this digit for each placeholder.
#[tactic(auto, using(crate::proofs::TidyLemmas::by_nothing, crate::proofs::TidyLemmas::by_command, crate::proofs::TidyLemmas::by_pattern, crate::proofs::TidyLemmas::by_none))]
fn is_tidy_by(alloc: Global, names: &LayoutNames, digit: &str, text: &Text) -> Result<bool, Memory>
    ensures { IfOk result (λ b. b ≡ spec.is_tidy_by names.now.ns digit.now text.now) }
{
    match said(alloc, text.as_bytes())? {
        None => Ok(false),
        Some(Line::Nothing) => Ok(true),
        Some(Line::Plain(cmd)) => Ok(is_tidy_command(&cmd, names)),
        Some(Line::Macro(pattern)) => {
            let filled = filled_by(alloc, pattern.parts(), digit)?;
            let line = said(alloc, filled.as_bytes())?;
            Ok(says_tidy(line, names))
        }
    }
}

/// Whether a line is tidy under the namespace of these names: it has no quotation mark, and both with 0 and with 1 for
/// each placeholder it says nothing, or a command that names nothing outside the namespace. A text that is no line
/// isn't tidy.
///
/// # Errors
///
/// `Memory` where there is no room for what the line says.
pub fn tidy(alloc: Global, names: &LayoutNames, text: &Text) -> Result<bool, Memory>
    ensures { IfOk result (λ b. b ≡ spec.is_tidy names.now.ns text.now) }
{
    Ok(
        has_no_quote(text.as_bytes())
            && is_tidy_by(alloc, names, "0", text)?
            && is_tidy_by(alloc, names, "1", text)?,
    )
}

/// The place of the first of these lines that isn't tidy under the namespace; `None` exactly where all are tidy.
///
/// # Errors
///
/// `Memory` where there is no room for what a line says.
pub fn first_untidy(
    alloc: Global,
    names: &LayoutNames,
    lines: &Texts,
) -> Result<Option<usize>, Memory>
    ensures { IfOk result (IsFirstUntidy names.now.ns lines.now) }
{
    for (at, line) in lines.as_slice().iter().enumerate() {
        if !tidy(alloc, names, line)? {
            return Ok(Some(at));
        }
    }
    Ok(None)
}
