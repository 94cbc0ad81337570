ghost use Rattle.std.specs.Prelude.{◌≡◌, ◌==◌, not, IfOk, Option, Some, None, length, option_and_then, option_map, suc};
ghost use Rattle.std.specs.List.{list_all};
ghost use Rattle.std.specs.Str.{is_utf8};
ghost use Rattle.mc_cmd.specs.Command.{plain};
ghost use Rattle.mc_cmd.specs.Grammar.{cmd_read, execute_of, is_comment, said_in, simple_read, subs_read};
ghost use Rattle.mc_cmd.specs.View.{cmd_view, line_view};
ghost use Rattle.mc_parse.specs.Parse.{IsParsed};

use crate::ParseFault;
use crate::commands::read_simple;
use crate::execute::read_subs;
use crate::pattern::read_pattern;
use mc_cmd::{Cmd, CmdKind, Line, strip_front};
use mc_nbt::Memory;
use std::alloc::Global;

/// The greatest number of bytes of a line.
const MAX_LEN: usize = 524_288;

// The command of this kind, which is read from a text.
fn read_plain(alloc: Global, t: &[u8]) -> Result<Option<Cmd>, Memory>
    ensures { IfOk result (λ o. option_map cmd_view o ≡ option_map plain (simple_read t.now)) }
{
    match read_simple(alloc, t)? {
        Some(simple) => match Cmd::new(CmdKind::Simple(simple)) {
            Some(cmd) => Ok(Some(cmd)),
            None => unreachable!(),
        },
        None => Ok(None),
    }
}

// The sub-commands and what they run fit, since they were read.
fn read_execute(alloc: Global, t: &[u8]) -> Result<Option<Cmd>, Memory>
    ensures { IfOk result (λ o. option_map cmd_view o ≡ option_and_then execute_of (subs_read (suc (length t.now)) t.now)) }
{
    match read_subs(alloc, t)? {
        Some((subs, run)) => match Cmd::new(CmdKind::Execute { subs, run }) {
            Some(cmd) => {
                let _kind = cmd.kind();
                Ok(Some(cmd))
            }
            None => Ok(None), // no sub-command, or a store before a command without a result
        },
        None => Ok(None),
    }
}

fn read_command(alloc: Global, t: &[u8]) -> Result<Option<Cmd>, Memory>
    ensures { IfOk result (λ o. option_map cmd_view o ≡ cmd_read t.now) }
{
    match strip_front(t, b"execute ") {
        Some(rest) => {
            let read = read_execute(alloc, rest)?;
            Ok(read)
        }
        None => {
            let read = read_plain(alloc, t)?;
            Ok(read)
        }
    }
}

#[tactic(auto, unfolding(mc_cmd::specs::Grammar::is_comment))]
fn is_comment_text(t: &[u8]) -> bool
    ensures { result ≡ is_comment t.now }
{
    is_utf8_text(t) && has_no_feed(t)
}

fn has_no_feed(t: &[u8]) -> bool
    ensures { result ≡ list_all (λ b. not (b == 10)) t.now }
{
    t.iter().all(|b| *b != 10)
}

fn is_utf8_text(t: &[u8]) -> bool
    ensures { result ≡ is_utf8 t.now }
{
    std::str::from_utf8(t).is_ok()
}

fn read_line(alloc: Global, t: &[u8]) -> Result<Option<Line>, Memory>
    ensures { IfOk result (λ o. option_map line_view o ≡ said_in t.now) }
{
    match t {
        [] => Ok(Some(Line::Nothing)),
        [b'#', rest @ ..] => {
            if is_comment_text(rest) {
                Ok(Some(Line::Nothing))
            } else {
                Ok(None)
            }
        }
        [b'$', ..] => match read_pattern(alloc, t)? {
            Some(pattern) => Ok(Some(Line::Macro(pattern))),
            None => Ok(None),
        },
        [..] => match read_command(alloc, t)? {
            Some(cmd) => Ok(Some(Line::Plain(cmd))),
            None => Ok(None),
        },
    }
}

/// The line that the bytes say. It takes time linear in their number, and doesn't recurse.
///
/// # Errors
///
/// `TooLong` where there are more bytes than a line may have, `NotInGrammar` where they say no line, `Memory` where
/// there is no room for the line.
#[tactic(auto, unfolding(mc_cmd::specs::Grammar::line_said))]
pub fn parse(alloc: Global, bytes: &[u8]) -> Result<Line, ParseFault>
    ensures { IsParsed bytes.now result }
{
    if bytes.len() > MAX_LEN {
        return Err(ParseFault::TooLong);
    }
    match read_line(alloc, bytes)? {
        Some(line) => Ok(line),
        None => Err(ParseFault::NotInGrammar),
    }
}
