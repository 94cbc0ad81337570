//! What a row calls, and what it is answered.

use crate::refusal::Refusal;
use crate::spelling::Frame;
use cc_cut::cut_module;
use std::alloc::Global;
use test_lines::{Stop, cut};
use wm_ast::{Instrs, depth};
use wm_decode::decode;
use wm_frame::{Cursor, FrameFault, frames, read_s32, read_s64, read_u32};
use wm_profile::check;
use wm_valid::{Typed, ValidFault, validate};

fn number_of(word: &str) -> Result<u32, Refusal> {
    word.parse::<u32>().map_err(|_| Refusal::Row)
}

/// A place in a function's body: numbers that are divided by dots, or `-` for none.
fn place_of(alloc: Global, word: &str) -> Result<Vec<u32>, Refusal> {
    let mut place = Vec::new(alloc);
    if word != "-" {
        for part in word.split('.') {
            place.push(number_of(part)?)?;
        }
    }
    Ok(place)
}

/// What a row in this frame is answered.
pub fn answer(alloc: Global, frame: &Frame<'_>, row: &str) -> Result<String, Refusal> {
    let (word, rest) = cut(row);
    if word == "kinds" {
        let (func, path) = cut(rest);
        let place = place_of(alloc, path)?;
        let bytes = frame.bytes(alloc, "")?;
        return kinds(alloc, &bytes, number_of(func)?, &place);
    }
    let bytes = frame.bytes(alloc, rest)?;
    match word {
        "u32" | "s32" | "s64" => number(alloc, word, &bytes),
        "frames" => sections(alloc, &bytes),
        "decode" => decoded(alloc, &bytes),
        "sizes" => sizes(alloc, &bytes),
        "fronts" => fronts(alloc, &bytes),
        "length" => Ok(format!(in alloc; "{}", body(alloc, &bytes)?.len())?),
        "first" => first(alloc, &bytes),
        "depth" => Ok(format!(in alloc; "{}", depth(&body(alloc, &bytes)?))?),
        "check" => checked(alloc, &bytes),
        "validate" => validated(alloc, &bytes),
        "height" => height(alloc, &bytes),
        "cuts" => cuts(alloc, &bytes),
        "memory" => memory(alloc),
        _ => Err(Refusal::Row),
    }
}

/// The text of what a call gives, or of why it gives nothing.
pub fn told(alloc: Global, found: Result<String, Refusal>) -> Result<String, Stop> {
    match found {
        Ok(text) => Ok(text),
        Err(Refusal::Row) => Err(Stop::Line),
        Err(Refusal::Memory) => Err(Stop::Memory),
        Err(refusal) => Ok(format!(in alloc; "{refusal}")?),
    }
}

/// The number at the front of the bytes, and the length of its spelling.
fn number(alloc: Global, word: &str, bytes: &[u8]) -> Result<String, Refusal> {
    let mut cursor = Cursor {
        at: 0,
        end: bytes.len(),
    };
    let read = match word {
        "u32" => read_u32(bytes, &mut cursor).map(i64::from),
        "s32" => read_s32(bytes, &mut cursor).map(i64::from),
        _ => read_s64(bytes, &mut cursor),
    };
    let length = cursor.at;
    Ok(match read {
        Some(n) => format!(in alloc; "{n}, {length} bytes")?,
        None => format!(in alloc; "none")?,
    })
}

/// The sections with their bounds.
fn sections(alloc: Global, bytes: &[u8]) -> Result<String, Refusal> {
    let found = frames(alloc, bytes)?;
    let mut text = String::from_str(alloc, "sections")?;
    for frame in found.as_slice() {
        let (id, start, end) = (frame.id, frame.start, frame.end);
        write!(text, " {id}:{start}-{end}")?;
    }
    Ok(text)
}

fn decoded(alloc: Global, bytes: &[u8]) -> Result<String, Refusal> {
    decode(alloc, bytes)?;
    Ok(String::from_str(alloc, "decoded")?)
}

/// The numbers of a module's functions, exports and data segments.
fn sizes(alloc: Global, bytes: &[u8]) -> Result<String, Refusal> {
    let module = decode(alloc, bytes)?;
    let functions = module.funcs.len();
    let exports = module.exports.len();
    let datas = module.datas.len();
    Ok(format!(in alloc; "{functions} functions, {exports} exports, {datas} datas")?)
}

fn front(alloc: Global, bytes: &[u8]) -> Result<String, Refusal> {
    match decoded(alloc, bytes) {
        Ok(text) => Ok(text),
        Err(refusal) => Ok(refusal.to_string(alloc)?),
    }
}

/// What decoding gives of each front of the bytes, in lines of their own.
fn fronts(alloc: Global, bytes: &[u8]) -> Result<String, Refusal> {
    let mut text = String::from_str(alloc, "each front")?;
    for length in 0..=bytes.len() {
        let answer = front(alloc, &bytes[..length])?;
        write!(text, "\n    {length} bytes: {answer}")?;
    }
    Ok(text)
}

/// The body of the last function.
fn body(alloc: Global, bytes: &[u8]) -> Result<Instrs, Refusal> {
    let module = decode(alloc, bytes)?;
    match module.funcs.into_vec().pop() {
        Some(func) => Ok(func.body),
        None => Err(Refusal::NoFunction),
    }
}

/// The first instruction of the last function.
fn first(alloc: Global, bytes: &[u8]) -> Result<String, Refusal> {
    let body = body(alloc, bytes)?;
    Ok(match body.get(0) {
        Some(instr) => format!(in alloc; "{instr:?}")?,
        None => format!(in alloc; "no instruction")?,
    })
}

fn checked(alloc: Global, bytes: &[u8]) -> Result<String, Refusal> {
    let module = decode(alloc, bytes)?;
    check(&module)?;
    Ok(String::from_str(alloc, "in the profile")?)
}

fn typed(alloc: Global, bytes: &[u8]) -> Result<Typed, Refusal> {
    let module = decode(alloc, bytes)?;
    check(&module)?;
    match validate(alloc, module) {
        Ok(typed) => Ok(typed),
        Err((_, fault)) => Err(Refusal::Valid(fault)),
    }
}

fn validated(alloc: Global, bytes: &[u8]) -> Result<String, Refusal> {
    typed(alloc, bytes)?;
    Ok(String::from_str(alloc, "valid")?)
}

/// The height of the first function.
fn height(alloc: Global, bytes: &[u8]) -> Result<String, Refusal> {
    let typed = typed(alloc, bytes)?;
    if typed.module().funcs.is_empty() {
        return Err(Refusal::NoFunction);
    }
    Ok(format!(in alloc; "{}", typed.height(0))?)
}

/// The cuts of all functions, in lines of their own.
fn cuts(alloc: Global, bytes: &[u8]) -> Result<String, Refusal> {
    let typed = typed(alloc, bytes)?;
    let cuts = cut_module(alloc, &typed)?;
    let mut text = format!(in alloc; "{} cuts", cuts.len())?;
    for cut in cuts.as_slice() {
        let (func, index) = (cut.func, cut.index);
        let (place, layout, exits) = (
            cut.place.as_slice(),
            cut.layout.as_slice(),
            cut.exits.as_slice(),
        );
        write!(
            text,
            "\n    {func} {index}: at {place:?}, operands {layout:?}, exits {exits:?}"
        )?;
    }
    Ok(text)
}

/// The faults that no bytes bring.
fn memory(alloc: Global) -> Result<String, Refusal> {
    let (frames, valid) = (FrameFault::Memory, ValidFault::Memory);
    Ok(format!(in alloc; "{frames}, {valid}")?)
}

/// The types of the operands at a place of a function.
fn kinds(alloc: Global, bytes: &[u8], func: u32, place: &[u32]) -> Result<String, Refusal> {
    let typed = typed(alloc, bytes)?;
    Ok(match typed.kinds(alloc, func, place)? {
        Some(kinds) => format!(in alloc; "{:?}", kinds.as_slice())?,
        None => format!(in alloc; "none")?,
    })
}
