// Macro lines.
ghost use Rattle.std.specs.Prelude.{◌≡◌, ◌==◌, not, IfOk, option_map};
ghost use Rattle.std.specs.List.{position};
ghost use Rattle.mc_cmd.specs.Pattern as macros;
ghost use Rattle.mc_cmd.specs.View.{part_view, pattern_view};
ghost use Rattle.mc_parse.specs.steps.Many as many;
ghost use Rattle.mc_parse.specs.steps.Pieces as pieces;

use crate::words::{read_key, text_where};
use mc_cmd::{Pattern, PatternPart, cut, strip_front};
use mc_nbt::Memory;
use std::alloc::Global;

fn is_literal_byte(b: u8) -> bool
    ensures { result ≡ macros.is_literal_byte b }
{
    matches!(b, b' '..=b'~') && b != b'$'
}

fn end_of_literal(t: &[u8]) -> Option<usize>
    ensures { result ≡ position (λ b. not (macros.is_literal_byte b)) t.now }
{
    t.iter().position(|b| !is_literal_byte(*b))
}

// The bytes of a literal part that the bytes begin with, and what is behind them.
fn span(t: &[u8]) -> (&[u8], &[u8])
    ensures { (result.0.now, result.1.now) ≡ many.span macros.is_literal_byte t.now }
{
    match end_of_literal(t) {
        None => (t, &[]),
        Some(i) => (&t[..i], &t[i..]),
    }
}

// `$(NAME)`, and what is behind it.
fn read_hole(alloc: Global, t: &[u8]) -> Result<Option<(PatternPart, &[u8])>, Memory>
    ensures { IfOk result (λ o. option_map (λ p. (part_view p.0, p.1.now)) o ≡ pieces.hole_read t.now) }
{
    let Some(t) = strip_front(t, b"$(") else {
        return Ok(None);
    };
    let Some((name, rest)) = cut(t, b')') else {
        return Ok(None);
    };
    match read_key(alloc, name)? {
        Some(name) => Ok(Some((PatternPart::Name(name), rest))),
        None => Ok(None),
    }
}

// A literal part as long as may be, or a name.
fn read_piece(alloc: Global, t: &[u8]) -> Result<Option<(PatternPart, &[u8])>, Memory>
    ensures { IfOk result (λ o. option_map (λ p. (part_view p.0, p.1.now)) o ≡ pieces.piece_read t.now) }
{
    let (literal, rest) = span(t);
    match literal {
        [] => read_hole(alloc, t),
        [..] => match text_where(alloc, true, literal)? {
            Some(text) => Ok(Some((PatternPart::Literal(text), rest))),
            None => Ok(None),
        },
    }
}

fn read_pieces(alloc: Global, t: &[u8]) -> Result<Option<Vec<PatternPart>>, Memory>
    ensures { IfOk result (λ o. option_map (λ v. pattern_view v.items) o ≡ pieces.pieces_read t.now) }
{
    let mut parts = Vec::new(alloc);
    let mut rest = t;
    let mut left = t.len();
    while !rest.is_empty() {
        if left == 0 {
            return Ok(None);
        }
        let Some((part, more)) = read_piece(alloc, rest)? else {
            return Ok(None);
        };
        parts.push(part)?;
        rest = more;
        left -= 1;
    }
    Ok(Some(parts))
}

fn read_by_pieces(alloc: Global, t: &[u8]) -> Result<Option<Pattern>, Memory>
    ensures { IfOk result (λ o. option_map pattern_view o ≡ pieces.pattern_read t.now) }
{
    let Some(t) = strip_front(t, b"$") else {
        return Ok(None);
    };
    match read_pieces(alloc, t)? {
        Some(parts) => match Pattern::new(parts) {
            Some(pattern) => {
                let _parts = pattern.parts();
                Ok(Some(pattern))
            }
            None => Ok(None),
        },
        None => Ok(None),
    }
}

pub(crate) fn read_pattern(alloc: Global, t: &[u8]) -> Result<Option<Pattern>, Memory>
    ensures { IfOk result (λ o. option_map pattern_view o ≡ macros.patterns.read t.now) }
{
    let read = read_by_pieces(alloc, t)?;
    Ok(read)
}
