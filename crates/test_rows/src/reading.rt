//! Rows from the texts of their files. The crate's `README.md` says the format.

ghost use Rattle.std.specs.Prelude.{◌<◌, IfOk};

use crate::row::{Piece, Plan, Row};
use io_dev::Fail;
use mc_nbt::{Memory, Text};
use std::alloc::{AllocError, AllocFailed, Global};

/// The most bytes that one line may put into a file.
const PIECE_CAP: usize = 33_554_432;

/// Why a text gives no row.
#[derive(Clone, Copy, Debug, PartialEq, Eq)]
pub enum Fault {
    /// The text has no row, and this is the number of the first line for which it has none; the first
    /// line is 1. It is 0 where the text isn't UTF-8 or has no line of words.
    Line(u64),
    /// There was no memory.
    Memory,
}

/// Why a line is not read.
#[derive(Clone, Copy, Debug, PartialEq, Eq)]
enum Wrong {
    Format,
    Memory,
}

impl From<Memory> for Wrong {
    fn from(_: Memory) -> Self {
        Wrong::Memory
    }
}

impl From<AllocError> for Wrong {
    fn from(_: AllocError) -> Self {
        Wrong::Memory
    }
}

impl<T: Drop> From<AllocFailed<T>> for Wrong {
    fn from(_: AllocFailed<T>) -> Self {
        Wrong::Memory
    }
}

/// The first word of a text, and what follows behind one space.
fn cut(text: &str) -> (&str, &str) {
    text.split_once(' ').unwrap_or((text, ""))
}

/// A number in decimal digits.
fn number(text: &str) -> Result<u64, Wrong> {
    text.parse::<u64>().map_err(|_| Wrong::Format)
}

fn size(text: &str) -> Result<usize, Wrong> {
    text.parse::<usize>().map_err(|_| Wrong::Format)
}

/// Words that are divided by one space. The empty word is spelled `""`.
fn read_words(alloc: Global, text: &str) -> Result<Vec<Text>, Wrong> {
    let mut words = Vec::new(alloc);
    if text.is_empty() {
        return Ok(words);
    }
    for word in text.split(' ') {
        match word {
            "" => return Err(Wrong::Format),
            "\"\"" => words.push(Text::new(alloc, "")?)?,
            _ => words.push(Text::new(alloc, word)?)?,
        }
    }
    Ok(words)
}

fn digit(byte: u8) -> Result<u8, Wrong>
    ensures { IfOk result (λ value. value < 16) }
{
    match byte {
        b'0'..=b'9' => Ok(byte - b'0'),
        b'a'..=b'f' => Ok(byte - b'a' + 10),
        _ => Err(Wrong::Format),
    }
}

/// Bytes in pairs of hexadecimal digits, between which spaces may stand.
fn read_hex(alloc: Global, text: &str) -> Result<Vec<u8>, Wrong> {
    let mut bytes = Vec::new(alloc);
    for word in text.split(' ') {
        for pair in word.as_bytes().chunks(2) {
            let [high, low] = pair else {
                return Err(Wrong::Format);
            };
            bytes.push(digit(*high)? * 16 + digit(*low)?)?;
        }
    }
    Ok(bytes)
}

/// A number, a space and bytes: these bytes so many times.
fn read_many(alloc: Global, text: &str) -> Result<Vec<u8>, Wrong> {
    let (times, hex) = cut(text);
    let times = size(times)?;
    let unit = read_hex(alloc, hex)?;
    if times.saturating_mul(unit.len()) > PIECE_CAP {
        return Err(Wrong::Format);
    }
    let mut bytes = Vec::new(alloc);
    for _ in 0..times {
        bytes.extend_from_slice(&unit)?;
    }
    Ok(bytes)
}

fn read_text(alloc: Global, text: &str, end: &str) -> Result<Vec<u8>, Wrong> {
    let mut bytes = text.as_bytes().to_vec(alloc)?;
    bytes.extend_from_slice(end.as_bytes())?;
    Ok(bytes)
}

fn read_path(alloc: Global, text: &str) -> Result<Text, Wrong> {
    if text.is_empty() {
        return Err(Wrong::Format);
    }
    Ok(Text::new(alloc, text)?)
}

/// A path, a space, and bytes in one of the four spellings.
fn read_piece(alloc: Global, text: &str) -> Result<Piece, Wrong> {
    let (path, content) = cut(text);
    let (spelling, spelled) = cut(content);
    let path = read_path(alloc, path)?;
    let bytes = match spelling {
        "hex" => read_hex(alloc, spelled)?,
        "many" => read_many(alloc, spelled)?,
        "line" => read_text(alloc, spelled, "\n")?,
        "text" => read_text(alloc, spelled, "")?,
        _ => return Err(Wrong::Format),
    };
    Ok(Piece { path, bytes })
}

/// The plan of the device of this name.
fn plan_of<'a>(row: &'a mut Row, device: &str) -> Result<&'a mut Plan, Wrong> {
    match device {
        "files" => Ok(&mut row.files_plan),
        "out" => Ok(&mut row.out_plan),
        "err" => Ok(&mut row.err_plan),
        _ => Err(Wrong::Format),
    }
}

/// The name of a device, the number of a call of it that fails, and the length of what that leaves.
fn read_fail(row: &mut Row, text: &str) -> Result<(), Wrong> {
    let (device, numbers) = cut(text);
    let (call, prefix) = cut(numbers);
    let fail = Fail {
        call: number(call)?,
        prefix: size(prefix)?,
    };
    plan_of(row, device)?.push(fail)?;
    Ok(())
}

/// Reads one line into the row. It answers whether the line gives the words.
fn read_line(alloc: Global, row: &mut Row, line: &str) -> Result<bool, Wrong> {
    let (name, rest) = cut(line);
    match name {
        "words" => row.words = read_words(alloc, rest)?,
        "file" => row.files.push(read_piece(alloc, rest)?)?,
        "swap" => row.swaps.push(read_piece(alloc, rest)?)?,
        "fail" => read_fail(row, rest)?,
        "prefixes" if row.prefixes.is_none() => row.prefixes = Some(read_path(alloc, rest)?),
        _ => return Err(Wrong::Format),
    }
    Ok(name == "words")
}

/// Whether a line does nothing: it is empty or a comment.
fn is_idle(line: &str) -> bool {
    line.is_empty() || line.starts_with('#')
}

/// The row that a text has.
pub fn read_row(alloc: Global, bytes: &[u8]) -> Result<Row, Fault> {
    let Ok(text) = std::str::from_utf8(bytes) else {
        return Err(Fault::Line(0));
    };
    let mut row = Row::new(alloc);
    let mut number = 0u64;
    let mut has_words = false;
    for line in text.split('\n') {
        number = number.saturating_add(1);
        if is_idle(line) {
            continue;
        }
        match read_line(alloc, &mut row, line) {
            Ok(true) if has_words => return Err(Fault::Line(number)),
            Ok(words) => has_words = has_words || words,
            Err(Wrong::Format) => return Err(Fault::Line(number)),
            Err(Wrong::Memory) => return Err(Fault::Memory),
        }
    }
    if has_words {
        Ok(row)
    } else {
        Err(Fault::Line(0))
    }
}
