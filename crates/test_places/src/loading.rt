//! The module whose program is looked for, and commands from text.

use mc_cmd::{Cmd, Line};
use mc_parse::parse;
use std::alloc::Global;
use test_lines::Stop;
use wm_decode::decode;
use wm_profile::check;
use wm_valid::{Typed, validate};

/// A module of one function, which gives 7 and is exported as `f`.
const CONSTANT: [u8; 34] = [
    0x00, 0x61, 0x73, 0x6d, 0x01, 0x00, 0x00, 0x00, 0x01, 0x05, 0x01, 0x60, 0x00, 0x01, 0x7f, 0x03,
    0x02, 0x01, 0x00, 0x07, 0x05, 0x01, 0x01, 0x66, 0x00, 0x00, 0x0a, 0x06, 0x01, 0x04, 0x00, 0x41,
    0x07, 0x0b,
];

/// The module.
///
/// # Errors
///
/// `Line` where it isn't taken, and `Memory`.
pub fn constant(alloc: Global) -> Result<Typed, Stop> {
    let Ok(module) = decode(alloc, &CONSTANT) else {
        return Err(Stop::Line);
    };
    if check(&module).is_err() {
        return Err(Stop::Line);
    }
    match validate(alloc, module) {
        Ok(typed) => Ok(typed),
        Err(_) => Err(Stop::Line),
    }
}

/// The command that a text says.
///
/// # Errors
///
/// `Line` where it says none.
pub fn command_of(alloc: Global, text: &str) -> Result<Cmd, Stop> {
    match parse(alloc, text.as_bytes()) {
        Ok(Line::Plain(cmd)) => Ok(cmd),
        _ => Err(Stop::Line),
    }
}
