//! The world of an engine: scores, and the places of a frame.

use crate::stop::Stop;
use cc_line::SCORE_PLACES;
use mc_cmd::{Cmd, Line, high_half, low_half};
use mc_engine::Engine;
use mc_nbt::{Kind, Memory, Path, PathPart, Sel, Text, Value, get};
use mc_parse::parse;
use mc_world::is_direct;
use std::alloc::Global;

/// The namespace of the packs.
pub const NAMESPACE: &str = "wk";

/// What a world has before the first operation: the objective, and a frame of 134 places.
const FRAME: [&str; 2] = [
    "scoreboard objectives add wk dummy",
    "data modify storage wk:c t.f set value [0,0,0,0,0,0]",
];

/// The command that a line says.
///
/// # Errors
///
/// `Pack` where it says none, and `Memory`.
pub fn command(alloc: Global, line: &[u8]) -> Result<Cmd, Stop> {
    match parse(alloc, line)? {
        Line::Plain(cmd) => Ok(cmd),
        Line::Nothing | Line::Macro(_) => Err(Stop::Pack),
    }
}

/// Gives an engine a command.
///
/// # Errors
///
/// `Pack` where it runs a function or returns, and `Memory`.
pub fn apply(engine: &mut Engine, cmd: &Cmd) -> Result<(), Stop> {
    if !is_direct(cmd) {
        return Err(Stop::Pack);
    }
    match engine.apply(cmd) {
        Ok(_) => Ok(()),
        Err(Memory) => Err(Stop::Memory),
    }
}

// Gives an engine the command that a text says.
fn give(alloc: Global, engine: &mut Engine, text: &str) -> Result<(), Stop> {
    let cmd = command(alloc, text.as_bytes())?;
    let applied = apply(engine, &cmd);
    drop(cmd);
    applied
}

/// Makes the objective and the frame.
///
/// # Errors
///
/// `Pack` where a command of the test is none, and `Memory`.
pub fn prepare(alloc: Global, engine: &mut Engine) -> Result<(), Stop> {
    for command in FRAME {
        give(alloc, engine, command)?;
    }
    Ok(())
}

/// Sets the score that tells traps to none.
///
/// # Errors
///
/// `Pack` where a command of the test is none, and `Memory`.
pub fn clear_trap(alloc: Global, engine: &mut Engine) -> Result<(), Stop> {
    give(alloc, engine, "scoreboard players set #t wk 0")
}

/// The score of a holder.
///
/// # Errors
///
/// `Memory` where there is no room for its name.
pub fn score(alloc: Global, engine: &Engine, holder: &str) -> Result<Option<i32>, Memory> {
    let holder = Text::new(alloc, holder)?;
    Ok(engine.world().score(&holder, &Text::new(alloc, NAMESPACE)?))
}

// ---- ints in places

// The command that sets a place of the frame.
fn setting(alloc: Global, place: u32, value: i32) -> Result<String, Memory> {
    Ok(if place < SCORE_PLACES {
        format!(in alloc; "scoreboard players set #{place} {NAMESPACE} {value}")?
    } else {
        let at = place - SCORE_PLACES;
        format!(in alloc; "data modify storage {NAMESPACE}:c t.f[{at}] set value {value}")?
    })
}

fn set_int(alloc: Global, engine: &mut Engine, place: u32, value: i32) -> Result<(), Stop> {
    let command = setting(alloc, place, value)?;
    give(alloc, engine, command.as_str())
}

fn element(alloc: Global, at: u32) -> Result<Path, Stop> {
    let mut parts = Vec::new(alloc);
    parts.push(PathPart::Key(Text::new(alloc, "t")?))?;
    parts.push(PathPart::Key(Text::new(alloc, "f")?))?;
    parts.push(PathPart::Place(i32::try_from(at).map_err(|_| Stop::Pack)?))?;
    Path::new(parts).ok_or(Stop::Pack)
}

// The number in a place of the frame.
fn int_at(alloc: Global, engine: &Engine, place: u32) -> Result<Option<i32>, Stop> {
    if place < SCORE_PLACES {
        let holder = format!(in alloc; "#{place}")?;
        return Ok(score(alloc, engine, holder.as_str())?);
    }
    let path = element(alloc, place - SCORE_PLACES)?;
    let Some(tree) = engine.world().storage(&Text::new(alloc, "wk:c")?) else {
        return Ok(None);
    };
    match get(tree, &path) {
        Some(Sel::Int(number)) => Ok(Some(number)),
        _ => Ok(None),
    }
}

// ---- values in places

fn of_halves(low: i32, high: i32) -> i64 {
    i64::from(high) * 4_294_967_296 + i64::from(low.cast_unsigned())
}

/// Puts a value into a place, and the high half of an i64 into the place behind it.
///
/// # Errors
///
/// `Pack` where a command of the test is none, and `Memory`.
pub fn set_value(alloc: Global, engine: &mut Engine, place: u32, value: Value) -> Result<(), Stop> {
    match value {
        Value::I32(value) => set_int(alloc, engine, place, value),
        Value::I64(value) => {
            set_int(alloc, engine, place, low_half(value))?;
            set_int(alloc, engine, place.saturating_add(1), high_half(value))
        }
    }
}

/// The value of this type that stands in a place, and the one behind it for an i64; none where none stands there.
///
/// # Errors
///
/// `Pack` where the place has no path, and `Memory`.
pub fn value_at(
    alloc: Global,
    engine: &Engine,
    place: u32,
    kind: Kind,
) -> Result<Option<Value>, Stop> {
    let Some(low) = int_at(alloc, engine, place)? else {
        return Ok(None);
    };
    match kind {
        Kind::I32 => Ok(Some(Value::I32(low))),
        Kind::I64 => {
            let high = int_at(alloc, engine, place.saturating_add(1))?;
            Ok(high.map(|high| Value::I64(of_halves(low, high))))
        }
    }
}
