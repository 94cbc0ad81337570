//! The words of command lines.

ghost use Rattle.std.specs.Prelude.{◌≡◌, ◌==◌, IfOk, option_map};
ghost use Rattle.std.specs.List.{list_all, position};
ghost use Rattle.mc_nbt.specs.Word.{is_int, is_name_byte};
ghost use Rattle.mc_cmd.specs.Form.{cut_at, strip, strip_end};
ghost use Rattle.mc_cmd.specs.Packing as packing;
ghost use Rattle.mc_cmd.specs.View.{cmp_view, op_view};
ghost use Rattle.mc_cmd.specs.Word as word;

use crate::{Cmp, Op};
use mc_nbt::Memory;
use std::alloc::Global;

/// What follows a front; `None` exactly where the text doesn't begin so.
pub fn strip_front<'a>(t: &'a [u8], front: &[u8]) -> Option<&'a [u8]>
    ensures { option_map (λ r. r.now) result ≡ strip front.now t.entry.now }
{
    t.strip_prefix(front)
}

/// What stands before an end; `None` exactly where the text doesn't end so.
pub fn strip_back<'a>(t: &'a [u8], back: &[u8]) -> Option<&'a [u8]>
    ensures { option_map (λ r. r.now) result ≡ strip_end back.now t.entry.now }
{
    t.strip_suffix(back)
}

fn position_of(t: &[u8], separator: u8) -> Option<usize>
    ensures { result ≡ position (λ b. b == separator) t.now }
{
    t.iter().position(|b| *b == separator)
}

/// The bytes before the first separator, and those behind it; `None` exactly where there is none.
pub fn cut(t: &[u8], separator: u8) -> Option<(&[u8], &[u8])>
    ensures { option_map (λ p. (p.0.now, p.1.now)) result ≡ cut_at separator t.now }
{
    match position_of(t, separator) {
        None => None,
        Some(i) => Some((&t[..i], &t[i + 1..])),
    }
}

/// The number from -2147483648 to 2147483647 that the bytes spell in decimal, without leading zeros, `+` or `-0`;
/// `None` exactly where they spell none so.
///
/// # Errors
///
/// `Memory` where there is no room for its spelling.
pub fn read_number(alloc: Global, w: &[u8]) -> Result<Option<i32>, Memory>
    ensures { IfOk result (λ o. o ≡ word.number.read w.now) }
{
    let Ok(s) = std::str::from_utf8(w) else {
        return Ok(None);
    };
    let Ok(n) = s.parse::<i32>() else {
        return Ok(None);
    };
    let again = n.to_string(alloc)?;
    if again.as_str() == s {
        Ok(Some(n))
    } else {
        Ok(None)
    }
}

/// The word of an operation.
pub fn op_word(op: Op) -> &'static str
    ensures { result.now ≡ word.op_text (op_view op) }
{
    match op {
        Op::Assign => "=",
        Op::Add => "+=",
        Op::Subtract => "-=",
        Op::Multiply => "*=",
        Op::Divide => "/=",
        Op::Remainder => "%=",
        Op::Lower => "<",
        Op::Raise => ">",
        Op::Swap => "><",
    }
}

/// The word of a comparison.
pub fn cmp_word(cmp: Cmp) -> &'static str
    ensures { result.now ≡ word.cmp_text (cmp_view cmp) }
{
    match cmp {
        Cmp::Less => "<",
        Cmp::LessEqual => "<=",
        Cmp::Equal => "=",
        Cmp::GreaterEqual => ">=",
        Cmp::Greater => ">",
    }
}

// A letter, a digit or `_`.
fn is_name(b: u8) -> bool
    ensures { result ≡ is_name_byte b }
{
    b.is_ascii_alphanumeric() || b == b'_'
}

// A small letter, a digit or `_`.
fn is_small(b: u8) -> bool
    ensures { result ≡ word.is_small_byte b }
{
    b.is_ascii_digit() || b.is_ascii_lowercase() || b == b'_'
}

fn are_names(w: &[u8]) -> bool
    ensures { result ≡ list_all is_name_byte w.now }
{
    w.iter().all(|b| is_name(*b))
}

fn are_small(w: &[u8]) -> bool
    ensures { result ≡ list_all word.is_small_byte w.now }
{
    w.iter().all(|b| is_small(*b))
}

fn are_holder_bytes(w: &[u8]) -> bool
    ensures { result ≡ list_all word.is_holder_byte w.now }
{
    w.iter().all(|b| is_name(*b) || *b == b'.')
}

/// Whether the bytes are an objective: 1 to 16 letters, digits and `_`.
#[tactic(auto, unfolding(crate::specs::Word::is_objective))]
pub fn is_objective(w: &[u8]) -> bool
    ensures { result ≡ word.is_objective w.now }
{
    are_names(w) && w.len() >= 1 && w.len() <= 16
}

fn is_holder_tail(w: &[u8]) -> bool
    ensures { result ≡ word.is_holder_rest w.now }
{
    are_holder_bytes(w) && w.len() >= 1 && w.len() <= 40
}

/// Whether the bytes are a score's holder: optionally `#`, then 1 to 40 letters, digits, `_` and `.`.
#[tactic(auto, unfolding(crate::specs::Word::is_holder))]
pub fn is_holder(w: &[u8]) -> bool
    ensures { result ≡ word.is_holder w.now }
{
    match w {
        [] => false,
        [b'#', rest @ ..] => is_holder_tail(rest),
        _ => is_holder_tail(w),
    }
}

/// Whether the bytes are a namespace: 1 to 16 small letters, digits and `_`.
#[tactic(auto, unfolding(crate::specs::Word::is_namespace))]
pub fn is_namespace(w: &[u8]) -> bool
    ensures { result ≡ word.is_namespace w.now }
{
    are_small(w) && w.len() >= 1 && w.len() <= 16
}

fn is_id_name(w: &[u8]) -> bool
    ensures { result ≡ word.is_id_name w.now }
{
    are_small(w) && w.len() >= 1 && w.len() <= 32
}

/// Whether the bytes are a function's name without its namespace: 1 to 64 small letters, digits and `_`.
pub fn is_function_name(w: &[u8]) -> bool
    ensures { result ≡ word.is_function_name w.now }
{
    are_small(w) && w.len() >= 1 && w.len() <= 64
}

/// Whether the bytes are a storage's name: a namespace, `:` and 1 to 32 small letters, digits and `_`.
#[tactic(auto, unfolding(crate::specs::Word::is_id))]
pub fn is_id(w: &[u8]) -> bool
    ensures { result ≡ word.is_id w.now }
{
    match cut(w, b':') {
        None => false,
        Some((namespace, name)) => is_namespace(namespace) && is_id_name(name),
    }
}

/// Whether the bytes are a function's name: a namespace, `:` and 1 to 64 small letters, digits and `_`.
#[tactic(auto, unfolding(crate::specs::Word::is_function))]
pub fn is_function(w: &[u8]) -> bool
    ensures { result ≡ word.is_function w.now }
{
    match cut(w, b':') {
        None => false,
        Some((namespace, name)) => is_namespace(namespace) && is_function_name(name),
    }
}

// Every number is in range: it is an `i32`.
pub(crate) fn is_number(_number: i32) -> bool
    ensures { result ≡ is_int _number }
{
    true
}

/// Whether the bytes are a namespace that a pack may have: any but the game's own, `minecraft`.
pub fn is_pack_namespace(w: &[u8]) -> bool
    ensures { result ≡ packing.is_pack_namespace w.now }
{
    is_namespace(w) && w != b"minecraft".as_slice()
}
