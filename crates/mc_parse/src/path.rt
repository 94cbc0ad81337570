// Paths of lines.
ghost use Rattle.std.specs.Prelude.{◌≡◌, ◌==◌, not, IfOk, option_map};
ghost use Rattle.std.specs.List.{position};
ghost use Rattle.mc_nbt.specs.View.{part, parts};
ghost use Rattle.mc_nbt.specs.Word as base;
ghost use Rattle.mc_cmd.specs.Value as values;
ghost use Rattle.mc_parse.specs.steps.Many as many;
ghost use Rattle.mc_parse.specs.steps.Paths as steps;

use crate::words::read_key;
use mc_cmd::{cut, read_number};
use mc_nbt::{Memory, Path, PathPart};
use std::alloc::Global;

/// The number of steps that may stand behind the first one.
const MORE_STEPS: usize = 15;

fn is_name(b: u8) -> bool
    ensures { result ≡ base.is_name_byte b }
{
    b.is_ascii_alphanumeric() || b == b'_'
}

fn end_of_name(t: &[u8]) -> Option<usize>
    ensures { result ≡ position (λ b. not (base.is_name_byte b)) t.now }
{
    t.iter().position(|b| !is_name(*b))
}

// The letters, digits and `_` that the bytes begin with, and what is behind them.
fn span(t: &[u8]) -> (&[u8], &[u8])
    ensures { (result.0.now, result.1.now) ≡ many.span base.is_name_byte t.now }
{
    match end_of_name(t) {
        None => (t, &[]),
        Some(i) => (&t[..i], &t[i..]),
    }
}

fn read_key_step(alloc: Global, t: &[u8]) -> Result<Option<(PathPart, &[u8])>, Memory>
    ensures { IfOk result (λ o. option_map (λ p. (part p.0, p.1.now)) o ≡ steps.key_read t.now) }
{
    let (name, rest) = span(t);
    match read_key(alloc, name)? {
        Some(key) => Ok(Some((PathPart::Key(key), rest))),
        None => Ok(None),
    }
}

fn read_place_step(alloc: Global, t: &[u8]) -> Result<Option<(PathPart, &[u8])>, Memory>
    ensures { IfOk result (λ o. option_map (λ p. (part p.0, p.1.now)) o ≡ steps.place_read t.now) }
{
    let Some((number, rest)) = cut(t, b']') else {
        return Ok(None);
    };
    match read_number(alloc, number)? {
        Some(place) => Ok(Some((PathPart::Place(place), rest))),
        None => Ok(None),
    }
}

fn read_step(alloc: Global, t: &[u8]) -> Result<Option<(PathPart, &[u8])>, Memory>
    ensures { IfOk result (λ o. option_map (λ p. (part p.0, p.1.now)) o ≡ steps.step_read t.now) }
{
    match t {
        [b'.', rest @ ..] => read_key_step(alloc, rest),
        [b'[', rest @ ..] => read_place_step(alloc, rest),
        _ => Ok(None),
    }
}

// The steps of a path.
fn read_steps(alloc: Global, t: &[u8]) -> Result<Option<Vec<PathPart>>, Memory>
    ensures { IfOk result (λ o. option_map (λ v. parts v.items) o ≡ steps.path_read t.now) }
{
    let Some((first, mut rest)) = read_key_step(alloc, t)? else {
        return Ok(None);
    };
    let mut steps = Vec::new(alloc);
    steps.push(first)?;
    let mut left = MORE_STEPS;
    while !rest.is_empty() {
        if left == 0 {
            return Ok(None);
        }
        let Some((step, more)) = read_step(alloc, rest)? else {
            return Ok(None);
        };
        steps.push(step)?;
        rest = more;
        left -= 1;
    }
    Ok(Some(steps))
}

pub(crate) fn read_path(alloc: Global, t: &[u8]) -> Result<Option<Path>, Memory>
    ensures { IfOk result (λ o. option_map parts o ≡ values.path.read t.now) }
{
    match read_steps(alloc, t)? {
        Some(steps) => Ok(Path::new(steps)),
        None => Ok(None),
    }
}
