//! How a run ended, as text.

use crate::running::End;
use std::alloc::{AllocError, Global};

/// The most bytes of a file that are printed; of a longer file its length and checksum are.
const SHOWN: usize = 2_048;

/// A sum modulo the greatest prime below 2^16.
fn sum_of(a: u32, b: u32) -> u32 {
    ((u64::from(a) + u64::from(b)) % 65_521) as u32
}

/// A number from its upper and its lower half.
fn from_halves(high: u32, low: u32) -> u64 {
    u64::from(high) * 65_536 + u64::from(low)
}

/// The Adler-32 checksum of RFC 1950.
fn adler32(bytes: &[u8]) -> u64 {
    let mut low = 1;
    let mut high = 0;
    for byte in bytes {
        low = sum_of(low, u32::from(*byte));
        high = sum_of(high, low);
    }
    from_halves(high, low)
}

/// A byte of a line: itself where it is printable ASCII but `\`, and else `\` and two hexadecimal digits,
/// or `\\`.
fn push_byte(text: &mut String, byte: u8) -> Result<(), AllocError> {
    match byte {
        b'\\' => text.push_str("\\\\"),
        b' '..=b'~' => text.push(char::from(byte)),
        _ => write!(text, "\\{byte:02x}"),
    }
}

/// The lines of these bytes, each behind the label and `|`. Where the last one lacks its line feed, `\`
/// stands behind it.
fn push_lines(text: &mut String, label: &str, bytes: &[u8]) -> Result<(), AllocError> {
    for line in bytes.split_inclusive(|byte| *byte == b'\n') {
        write!(text, "{label}|")?;
        let (end, inner) = match line.strip_suffix(b"\n") {
            Some(inner) => ("\n", inner),
            None => ("\\\n", line),
        };
        for byte in inner {
            push_byte(text, *byte)?;
        }
        text.push_str(end)?;
    }
    Ok(())
}

fn push_content(text: &mut String, bytes: &[u8]) -> Result<(), AllocError> {
    if bytes.len() <= SHOWN {
        return push_lines(text, "    ", bytes);
    }
    let length = bytes.len();
    let sum = adler32(bytes);
    writeln!(text, "    {length} bytes, adler32 {sum:08x}")
}

/// The text of a run's end under this title: the status, the output, the error stream, each file that the
/// run wrote as it stands now, and the number of calls of files.
pub fn print_end(alloc: Global, title: &str, end: &End) -> Result<String, AllocError> {
    let status = end.status as u8;
    let mut text = format!(in alloc; "row {title}\nstatus {status}\n")?;
    push_lines(&mut text, "out", end.out.bytes())?;
    push_lines(&mut text, "err", end.err.bytes())?;
    for path in end.files.writes() {
        writeln!(text, "wrote {path}")?;
        push_content(&mut text, end.files.files.bytes(path).unwrap_or(b""))?;
    }
    let calls = end.files.files.calls();
    writeln!(text, "{calls} calls of files\n")?;
    Ok(text)
}
