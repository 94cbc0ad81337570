//! What the test programs share: a table as a text, the words of its lines, bytes in hexadecimal digits, and why a
//! program ends before its table does.
#![tactic(auto)]

mod stop;

use std::alloc::Global;
use std::fs;
pub use stop::Stop;

/// The text of the file at a path, of the folder in which the program runs.
///
/// # Errors
///
/// `System` where it isn't read, or isn't UTF-8.
pub fn read_table(rt: &HostRuntime, path: &str) -> Result<String, Stop> {
    Ok(fs::read_to_string(rt, path)?)
}

/// The first word of a text, and what follows behind one space; all and nothing where there is no space.
pub fn cut(text: &str) -> (&str, &str) {
    text.split_once(' ').unwrap_or((text, ""))
}

/// The number that a word spells in decimal digits.
///
/// # Errors
///
/// `Line` where it spells none below 2^64.
pub fn number(word: &str) -> Result<u64, Stop> {
    word.parse::<u64>().map_err(|_| Stop::Line)
}

/// The bytes that pairs of hexadecimal digits spell.
///
/// # Errors
///
/// `Line` where they spell none, and `Memory`.
pub fn bytes(alloc: Global, digits: &str) -> Result<Vec<u8>, Stop> {
    Ok(hex::decode(alloc, digits)?)
}

/// Whether a line of a table is answered: it is not empty and no comment.
pub fn is_row(line: &str) -> bool {
    !line.is_empty() && !line.starts_with('#')
}

/// A text so many times.
///
/// # Errors
///
/// `Memory` where there is no room for it.
pub fn many(alloc: Global, times: u64, text: &str) -> Result<Vec<u8>, Stop> {
    let mut bytes = Vec::new(alloc);
    for _ in 0..times {
        bytes.extend_from_slice(text.as_bytes())?;
    }
    Ok(bytes)
}
