ghost use Rattle.std.specs.Prelude.{◌≡◌, ◌&&◌, ◌∷◌, [], MatchOption, false, not, true};
ghost use Rattle.std.specs.List.{list_all};
ghost use Rattle.mc_cmd.specs.Form.{lacks};
ghost use Rattle.mc_cmd.specs.Pattern.{begins_with_hole, parts_fit, pattern_fits};
ghost use Rattle.mc_cmd.specs.Pattern as spec;
ghost use Rattle.mc_cmd.specs.View.{part_view, pattern_view};

use mc_nbt::{Text, is_key};
use std::marker::Model;

/// A part of a macro line.
#[derive(Debug, PartialEq, Eq, Drop)]
pub enum PatternPart {
    /// A text as it stands: printable ASCII other than `$`.
    Literal(Text),
    /// `$(NAME)`, for the value under this key.
    Name(Text),
}

/// The pattern of a macro line: parts of which no literal one is empty and no two literal ones stand side by side;
/// the first is a literal one with a whole first word and the space after it, and at least one part follows. It is
/// seen as the list of its parts.
#[derive(Debug, Drop)]
pub struct Pattern {
    parts: Vec<PatternPart>,
}

impl Model for Pattern {
    ghost use Rattle.std.specs.Prelude.{◌≡◌, List, true};
    ghost use Rattle.mc_cmd.specs.declared.pattern.PatternPart.{PatternPart};

    ghost Value = { List PatternPart };

    ghost use Rattle.mc_cmd.specs.Pattern.{pattern_fits};
    ghost use Rattle.mc_cmd.specs.View.{pattern_view};

    ghost view = { λ p. p.parts.items };

    ghost invariant = { λ p. pattern_fits (pattern_view p.parts.items) ≡ true };
}

impl Pattern {
    /// The pattern of these parts; `None` exactly where they are none.
    pub fn new(parts: Vec<PatternPart>) -> Option<Pattern>
        ensures { MatchOption result (pattern_fits (pattern_view parts.items) ≡ false) (λ p. p ≡ parts.items) }
    {
        if is_pattern(parts.as_slice()) {
            Some(Pattern { parts })
        } else {
            None
        }
    }

    /// The parts.
    pub fn parts(&self) -> &[PatternPart]
        ensures parts { result.now ≡ self.now }
        ensures fits { pattern_fits (pattern_view self.now) ≡ true }
    {
        self.parts.as_slice()
    }
}

fn is_pattern(parts: &[PatternPart]) -> bool
    ensures { result ≡ pattern_fits (pattern_view parts.now) }
{
    match parts {
        [PatternPart::Literal(first), _, ..] => has_word(first.as_bytes()) && are_parts(parts),
        _ => false,
    }
}

// Whether there is a whole first word, and the space after it.
fn has_word(text: &[u8]) -> bool
    ensures { result ≡ spec.has_word text.now }
{
    match text {
        [] => false,
        [b' ', ..] => false,
        [_, rest @ ..] => !has_no_space(rest),
    }
}

fn has_no_space(text: &[u8]) -> bool
    ensures { result ≡ lacks 32 text.now }
{
    for b in text {
        if *b == b' ' {
            return false;
        }
    }
    true
}

fn are_parts(parts: &[PatternPart]) -> bool
    ensures { result ≡ parts_fit (pattern_view parts.now) }
{
    let mut behind_literal = false;
    for part in parts {
        if !fits_behind(behind_literal, part) {
            return false;
        }
        behind_literal = is_literal_part(part);
    }
    true
}

fn is_literal_part(part: &PatternPart) -> bool
    ensures { result ≡ not (begins_with_hole (part_view part.now ∷ [])) }
{
    match part {
        PatternPart::Literal(_) => true,
        PatternPart::Name(_) => false,
    }
}

// Whether the part may stand behind a literal one, or behind a name.
fn fits_behind(literal: bool, part: &PatternPart) -> bool
    ensures { result ≡ (not (literal && not (begins_with_hole (part_view part.now ∷ []))) && parts_fit (part_view part.now ∷ [])) }
{
    match part {
        PatternPart::Literal(text) => !literal && is_literal(text.as_bytes()),
        PatternPart::Name(name) => is_key(name.as_bytes()),
    }
}

fn is_literal(text: &[u8]) -> bool
    ensures { result ≡ spec.is_literal text.now }
{
    match text {
        [] => false,
        [..] => are_literal_bytes(text),
    }
}

fn are_literal_bytes(text: &[u8]) -> bool
    ensures { result ≡ list_all spec.is_literal_byte text.now }
{
    text.iter().all(|b| is_literal_byte(*b))
}

fn is_literal_byte(b: u8) -> bool
    ensures { result ≡ spec.is_literal_byte b }
{
    matches!(b, b' '..=b'~') && b != b'$'
}
