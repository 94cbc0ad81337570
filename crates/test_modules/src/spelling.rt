//! Bytes as a table spells them. The crate's `README.md` says the notation.

use crate::refusal::Refusal;
use std::alloc::{AllocError, Global};
use test_lines::bytes;

/// The most bytes that one word spells.
const WORD_CAP: usize = 1_048_576;

/// What stands round the bytes of each row.
#[derive(Clone, Copy)]
pub struct Frame<'a> {
    before: &'a str,
    after: &'a str,
}

impl<'a> Frame<'a> {
    /// The frame of this text, which has the row's place at its `_`, or at its end.
    pub fn new(text: &'a str) -> Frame<'a> {
        let (before, after) = text.split_once('_').unwrap_or((text, ""));
        Frame { before, after }
    }

    /// The bytes of a row in this frame.
    pub fn bytes(&self, alloc: Global, row: &str) -> Result<Vec<u8>, Refusal> {
        let mut spelling = Spelling::new(alloc);
        spelling.push_text(alloc, self.before)?;
        spelling.push_text(alloc, row)?;
        spelling.push_text(alloc, self.after)?;
        spelling.end()
    }
}

/// Bytes that are being spelled.
#[derive(Drop)]
struct Spelling {
    /// The bytes before each part that is begun and not ended, those of the outermost first.
    before: Vec<Vec<u8>>,
    /// The bytes since then.
    bytes: Vec<u8>,
}

impl Spelling {
    fn new(alloc: Global) -> Spelling {
        Spelling {
            before: Vec::new(alloc),
            bytes: Vec::new(alloc),
        }
    }

    fn push_text(&mut self, alloc: Global, text: &str) -> Result<(), Refusal> {
        for word in text.split(' ') {
            match word {
                "(" => self.begin_part(alloc)?,
                ")" => self.end_part(alloc)?,
                _ => push_word(alloc, &mut self.bytes, word)?,
            }
        }
        Ok(())
    }

    fn begin_part(&mut self, alloc: Global) -> Result<(), Refusal> {
        let before = std::mem::replace(&mut self.bytes, Vec::new(alloc));
        self.before.push(before)?;
        Ok(())
    }

    /// Puts the size of the part before it.
    fn end_part(&mut self, alloc: Global) -> Result<(), Refusal> {
        let before = self.before.pop().ok_or(Refusal::Row)?;
        let part = std::mem::replace(&mut self.bytes, before);
        push_size(&mut self.bytes, part.len())?;
        self.bytes.extend_from_slice(&part)?;
        Ok(())
    }

    fn end(self) -> Result<Vec<u8>, Refusal> {
        if self.before.is_empty() {
            Ok(self.bytes)
        } else {
            Err(Refusal::Row)
        }
    }
}

/// An unsigned number as LEB128, in as few bytes as there can be.
fn push_size(bytes: &mut Vec<u8>, size: usize) -> Result<(), AllocError> {
    let mut rest = size;
    while rest >= 128 {
        bytes.push((rest % 128) as u8 + 128)?;
        rest /= 128;
    }
    bytes.push(rest as u8)?;
    Ok(())
}

/// Bytes in pairs of hexadecimal digits, and behind a `*` how many times they stand.
fn push_word(alloc: Global, into: &mut Vec<u8>, word: &str) -> Result<(), Refusal> {
    let (digits, times) = word.split_once('*').unwrap_or((word, "1"));
    let unit = bytes(alloc, digits)?;
    let times = times.parse::<usize>().map_err(|_| Refusal::Row)?;
    if times.saturating_mul(unit.len()) > WORD_CAP {
        return Err(Refusal::Row);
    }
    for _ in 0..times {
        into.extend_from_slice(&unit)?;
    }
    Ok(())
}
