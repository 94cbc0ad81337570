// The words of lines.
ghost use Rattle.std.specs.Prelude.{◌≡◌, IfOk, Option, Some, None, option_map, true, if◌then◌else◌};
ghost use Rattle.std.specs.Str.{IsAscii};
ghost use Rattle.mc_nbt.specs.View.{view};
ghost use Rattle.mc_nbt.specs.Word as base;
ghost use Rattle.mc_cmd.specs.Form.{word};
ghost use Rattle.mc_cmd.specs.Value as values;
ghost use Rattle.mc_cmd.specs.View.{cmp_view, op_view, range_view};
ghost use Rattle.mc_cmd.specs.Word as words;
ghost use Rattle.mc_parse.specs.steps.Range.{natural_in};
ghost use Rattle.mc_parse.specs.steps.Range as ranges;

use mc_cmd::{
    Cmp, Op, Range, cmp_word, cut, is_function, is_holder, is_id, is_objective, op_word,
    read_number, strip_front,
};
use mc_nbt::{Memory, Nbt, SnbtFault, Text, is_key};
use std::alloc::Global;

// The bytes as text where they fit.
pub(crate) fn text_where(alloc: Global, fits: bool, w: &[u8]) -> Result<Option<Text>, Memory>
    requires { fits ≡ true → IsAscii w.now }
    ensures { IfOk result (λ o. o ≡ (if fits then Some w.now else None)) }
{
    if !fits {
        return Ok(None);
    }
    match std::str::from_utf8(w) {
        Ok(s) => Ok(Some(Text::new(alloc, s)?)),
        Err(_) => unreachable!(),
    }
}

pub(crate) fn read_objective(alloc: Global, w: &[u8]) -> Result<Option<Text>, Memory>
    ensures { IfOk result (λ o. o ≡ words.objective.read w.now) }
{
    let fits = is_objective(w);
    let read = text_where(alloc, fits, w)?;
    Ok(read)
}

pub(crate) fn read_holder(alloc: Global, w: &[u8]) -> Result<Option<Text>, Memory>
    ensures { IfOk result (λ o. o ≡ words.holder.read w.now) }
{
    let fits = is_holder(w);
    let read = text_where(alloc, fits, w)?;
    Ok(read)
}

pub(crate) fn read_id(alloc: Global, w: &[u8]) -> Result<Option<Text>, Memory>
    ensures { IfOk result (λ o. o ≡ words.id.read w.now) }
{
    let fits = is_id(w);
    let read = text_where(alloc, fits, w)?;
    Ok(read)
}

pub(crate) fn read_function(alloc: Global, w: &[u8]) -> Result<Option<Text>, Memory>
    ensures { IfOk result (λ o. o ≡ words.function.read w.now) }
{
    let fits = is_function(w);
    let read = text_where(alloc, fits, w)?;
    Ok(read)
}

pub(crate) fn read_key(alloc: Global, w: &[u8]) -> Result<Option<Text>, Memory>
    ensures { IfOk result (λ o. o ≡ (word base.is_key).read w.now) }
{
    let fits = is_key(w);
    let read = text_where(alloc, fits, w)?;
    Ok(read)
}

fn not_below_zero(n: i32) -> bool
    ensures { result ≡ words.is_natural n }
{
    n >= 0
}

// The number where it isn't below 0.
fn natural_of(read: Option<i32>) -> Option<i32>
    ensures { result ≡ natural_in read }
{
    match read {
        Some(n) => { if not_below_zero(n) { Some(n) } else { None } }
        None => None,
    }
}

// The same from 0 up.
pub(crate) fn read_natural(alloc: Global, w: &[u8]) -> Result<Option<i32>, Memory>
    ensures { IfOk result (λ o. o ≡ words.natural.read w.now) }
{
    let read = read_number(alloc, w)?;
    Ok(natural_of(read))
}

fn op_by(b: u8) -> Op
    ensures { op_view result ≡ words.op_by b }
{
    match b {
        b'=' => Op::Assign,
        b'+' => Op::Add,
        b'-' => Op::Subtract,
        b'*' => Op::Multiply,
        b'/' => Op::Divide,
        b'%' => Op::Remainder,
        b'<' => Op::Lower,
        _ => Op::Raise,
    }
}

// The operation that the word is, if it is one.
fn op_value(w: &[u8]) -> Op
    ensures { op_view result ≡ words.op_value w.now }
{
    match w {
        [] => Op::Assign,
        [b] => op_by(*b),
        [b, ..] => { if *b == b'>' { Op::Swap } else { op_by(*b) } }
    }
}

pub(crate) fn read_op(w: &[u8]) -> Option<Op>
    ensures { option_map op_view result ≡ words.op.read w.now }
{
    let op = op_value(w);
    if op_word(op).as_bytes() == w {
        Some(op)
    } else {
        None
    }
}

// The comparison that the word is, if it is one.
fn cmp_value(w: &[u8]) -> Cmp
    ensures { cmp_view result ≡ words.cmp_value w.now }
{
    match w {
        [] => Cmp::Equal,
        [b'<'] => Cmp::Less,
        [b'>'] => Cmp::Greater,
        [_] => Cmp::Equal,
        [b'<', ..] => Cmp::LessEqual,
        [_, ..] => Cmp::GreaterEqual,
    }
}

pub(crate) fn read_cmp(w: &[u8]) -> Option<Cmp>
    ensures { option_map cmp_view result ≡ words.cmp.read w.now }
{
    let cmp = cmp_value(w);
    if cmp_word(cmp).as_bytes() == w {
        Some(cmp)
    } else {
        None
    }
}

fn is_at_most(n: i32, m: i32) -> bool
    ensures { result ≡ words.is_at_most n m }
{
    n <= m
}

// What stands before the dots of a range, and what stands behind them.
fn read_ends(alloc: Global, a: &[u8], b: &[u8]) -> Result<Option<Range>, Memory>
    ensures { IfOk result (λ o. option_map range_view o ≡ ranges.ends_read a.now b.now) }
{
    match a {
        [] => match read_number(alloc, b)? {
            Some(n) => Ok(Some(Range::To(n))),
            None => Ok(None),
        },
        [..] => read_from(alloc, a, b),
    }
}

// The same where something stands before the dots.
fn read_from(alloc: Global, a: &[u8], b: &[u8]) -> Result<Option<Range>, Memory>
    ensures { IfOk result (λ o. option_map range_view o ≡ ranges.from_read a.now b.now) }
{
    let Some(n) = read_number(alloc, a)? else {
        return Ok(None);
    };
    match b {
        [] => Ok(Some(Range::From(n))),
        [..] => match read_number(alloc, b)? {
            Some(m) => {
                if is_at_most(n, m) {
                    Ok(Some(Range::Both(n, m)))
                } else {
                    Ok(None)
                }
            }
            None => Ok(None),
        },
    }
}

fn read_by_dots(alloc: Global, w: &[u8]) -> Result<Option<Range>, Memory>
    ensures { IfOk result (λ o. option_map range_view o ≡ ranges.range_read w.now) }
{
    match cut(w, b'.') {
        None => match read_number(alloc, w)? {
            Some(n) => Ok(Some(Range::One(n))),
            None => Ok(None),
        },
        Some((a, rest)) => match strip_front(rest, b".") {
            None => Ok(None),
            Some(b) => {
                let read = read_ends(alloc, a, b)?;
                Ok(read)
            }
        },
    }
}

pub(crate) fn read_range(alloc: Global, w: &[u8]) -> Result<Option<Range>, Memory>
    ensures { IfOk result (λ o. option_map range_view o ≡ words.range.read w.now) }
{
    let read = read_by_dots(alloc, w)?;
    Ok(read)
}

// A value: the spelling of a tree that is at most 64 deep.
pub(crate) fn read_value(alloc: Global, w: &[u8]) -> Result<Option<Nbt>, Memory>
    ensures { IfOk result (λ o. option_map view o ≡ values.value.read w.now) }
{
    match mc_nbt::read(alloc, w) {
        Ok(tree) => Ok(Some(tree)),
        Err(SnbtFault::Memory) => Err(Memory),
        Err(SnbtFault::Syntax { .. }) => Ok(None),
        Err(SnbtFault::Depth) => Ok(None),
    }
}
