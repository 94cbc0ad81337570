//! A line of a file of calls. The crate's `README.md` says the format.

use mc_nbt::Value;
use std::alloc::{AllocError, Global};
use test_lines::cut;

/// The bytes of the memory that a line asks for.
#[derive(Clone, Copy, Debug, PartialEq, Eq)]
pub struct Range {
    pub address: usize,
    pub length: usize,
}

/// The name of the export that a line calls; none where it is no call.
pub fn called(line: &str) -> Option<&str> {
    let (word, rest) = cut(line);
    if word == "call" || word == "count" {
        Some(cut(rest).0)
    } else {
        None
    }
}

fn value(word: &str) -> Option<Value> {
    let (kind, number) = word.split_once(':')?;
    if kind == "i32" {
        Some(Value::I32(number.parse::<i32>().ok()?))
    } else if kind == "i64" {
        Some(Value::I64(number.parse::<i64>().ok()?))
    } else {
        None
    }
}

/// The arguments of a call, behind its name; none where a word is no value.
pub fn arguments(alloc: Global, line: &str) -> Result<Option<Vec<Value>>, AllocError> {
    let mut values = Vec::new(alloc);
    for word in line.split(' ').skip(2) {
        match value(word) {
            Some(value) => values.push(value)?,
            None => return Ok(None),
        }
    }
    Ok(Some(values))
}

/// The bytes that a line asks for; none where it asks for none.
pub fn asked_range(line: &str) -> Option<Range> {
    let (word, rest) = cut(line);
    let (address, length) = rest.split_once(' ')?;
    if word == "memory" {
        Some(Range {
            address: address.parse::<usize>().ok()?,
            length: length.parse::<usize>().ok()?,
        })
    } else {
        None
    }
}
