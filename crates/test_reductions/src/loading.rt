//! Modules from the files of the folder.

use std::alloc::Global;
use std::fs;
use test_lines::Stop;
use wm_decode::decode;
use wm_profile::check;
use wm_valid::{Typed, validate};

fn typed(alloc: Global, bytes: &[u8]) -> Option<Typed> {
    let Ok(module) = decode(alloc, bytes) else {
        return None;
    };
    check(&module).ok()?;
    match validate(alloc, module) {
        Ok(typed) => Some(typed),
        Err(_) => None,
    }
}

/// The module of the file at this path.
pub fn load(rt: &HostRuntime, path: &str) -> Result<Typed, Stop> {
    let bytes = fs::read(rt, path)?;
    match typed(rt.alloc(), &bytes) {
        Some(typed) => Ok(typed),
        None => Err(Stop::Line),
    }
}
