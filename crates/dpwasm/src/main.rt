//! The program: the system's words, files and streams, handed to the call that does all the work.
//!
//! Its exit status is the number of that call's answer: 0 done, 1 usage, 2 the module, 3 a read,
//! 4 a write, 5 the pack, 6 out of memory, 7 the script, 8 a folder that isn't empty.
#![tactic(auto)]

use app_top::{Status, top};
use io_dev::{DiskFiles, StdSink};
use mc_nbt::{Memory, Text};
use std::alloc::Global;
use std::env;
use std::io::ErrorKind;
use std::process::ExitCode;

// The words after the program's name, or none where one of them isn't UTF-8.
fn words(alloc: Global, rt: &HostRuntime) -> Result<Vec<Text>, Memory> {
    let mut words = Vec::new(alloc);
    let args = match env::args(rt) {
        Ok(args) => args,
        Err(error) if error.kind() == ErrorKind::OutOfMemory => return Err(Memory),
        Err(_) => return Ok(words),
    };
    for arg in args.skip(1) {
        words.push(Text::from(arg))?;
    }
    Ok(words)
}

fn main(rt: HostRuntime) -> ExitCode {
    let alloc = rt.alloc();
    let Ok(words) = words(alloc, &rt) else {
        return ExitCode::from(Status::Memory as u8);
    };
    let mut out = StdSink::new(rt.stdout());
    let mut err = StdSink::new(rt.stderr());
    let mut files = DiskFiles::new(alloc, rt);
    let status = top(alloc, &words, &mut files, &mut out, &mut err);
    ExitCode::from(status as u8)
}
