//! Reads operations with operands from the file `operations.txt`, one in each line, and prints each line with what
//! `wm_num` gives. Each operation is emitted too, with its operands and its result in several places, and run by the
//! engine; where that gives anything else, the line says so. Behind all lines stands what each of them weighed, and
//! then come the exact lines of the blocks that the file `blocks.txt` names, and what the chains of `chains.txt` leave.
//!
//! Its exit status is 0 where every line was an operation with its operands, and else the number of the cause, which is
//! told on standard error: 1 a line that is none, or code that is no function of a pack, 2 the file isn't read, 3 the
//! output, 4 out of memory.
#![tactic(auto)]

mod blocks;
mod chains;
mod code;
mod emitted;
mod frame;
mod name;
mod packing;
mod reading;
mod standing;
mod stop;

use blocks::block_text;
use chains::{chain_text, engine_of_chains};
use emitted::Routine;
use io_dev::{DiskFiles, Files, Sink, StdSink};
use mc_nbt::{Bytes, Text, Value};
use name::OPERATIONS;
use reading::{Evaluated, evaluate};
use standing::Standing;
use std::alloc::Global;
use std::process::ExitCode;
use stop::Stop;
use wm_num::Answer;

const TABLE: &str = "operations.txt";

const BLOCKS: &str = "blocks.txt";

const CHAINS: &str = "chains.txt";

/// The most bytes of the table.
const TABLE_CAP: u64 = 1_048_576;

fn read<F: Files>(alloc: Global, files: &mut F, name: &str) -> Result<Bytes, Stop> {
    match files.read(&Text::new(alloc, name)?, TABLE_CAP) {
        Ok(bytes) => Ok(bytes),
        Err(_) => Err(Stop::Unread),
    }
}

fn print<O: Sink>(out: &mut O, text: &str) -> Result<(), Stop> {
    match out.write(text.as_bytes()) {
        Ok(()) => Ok(()),
        Err(_) => Err(Stop::Output),
    }
}

/// The line of an operation, what it gives, and whether packs give the same.
fn told(alloc: Global, line: &str, answer: Answer, agrees: bool) -> Result<String, Stop> {
    let other = if agrees {
        ""
    } else {
        ", which packs don't give"
    };
    Ok(match answer {
        Answer::Value(Value::I32(value)) => format!(in alloc; "{line} = {value}{other}\n")?,
        Answer::Value(Value::I64(value)) => format!(in alloc; "{line} = {value}{other}\n")?,
        Answer::Trap(trap) => format!(in alloc; "{line} = trap {trap:?}{other}\n")?,
    })
}

/// All operations that are emitted, in the order of their names' table.
fn routines(alloc: Global) -> Result<Vec<(&'static str, Routine)>, Stop> {
    let standing = Standing::new(alloc)?;
    let mut routines = Vec::new(alloc);
    for (name, op) in OPERATIONS {
        if let Some(routine) = Routine::new(alloc, op, &standing)? {
            routines.push((name, routine))?;
        }
    }
    Ok(routines)
}

/// Whether packs give what was worked out; so too where the operation isn't emitted.
fn packs_agree(
    alloc: Global,
    routines: &mut [(&'static str, Routine)],
    evaluated: &Evaluated,
) -> Result<bool, Stop> {
    let Evaluated {
        op,
        operands,
        answer,
    } = *evaluated;
    match routines.iter_mut().find(|entry| entry.1.op() == op) {
        Some(entry) => entry.1.agrees(alloc, operands, answer),
        None => Ok(true),
    }
}

fn print_weights<O: Sink>(
    alloc: Global,
    out: &mut O,
    routines: &[(&'static str, Routine)],
) -> Result<(), Stop> {
    for (name, routine) in routines {
        let weights = routine.weights(alloc)?;
        let line = format!(in alloc; "{name} weighs{weights}\n")?;
        print(out, line.as_str())?;
    }
    Ok(())
}

fn print_blocks<F: Files, O: Sink>(alloc: Global, files: &mut F, out: &mut O) -> Result<(), Stop> {
    let bytes = read(alloc, files, BLOCKS)?;
    let Ok(table) = std::str::from_utf8(bytes.as_slice()) else {
        return Err(Stop::Line(0));
    };
    for line in table.lines() {
        print(out, block_text(alloc, line)?.as_str())?;
    }
    Ok(())
}

fn print_operations<F: Files, O: Sink>(
    alloc: Global,
    files: &mut F,
    out: &mut O,
) -> Result<(), Stop> {
    let bytes = read(alloc, files, TABLE)?;
    let Ok(table) = std::str::from_utf8(bytes.as_slice()) else {
        return Err(Stop::Line(0));
    };
    let mut routines = routines(alloc)?;
    let mut number = 0u64;
    for line in table.lines() {
        number = number.saturating_add(1);
        let Some(evaluated) = evaluate(line) else {
            return Err(Stop::Line(number));
        };
        let agrees = packs_agree(alloc, routines.as_mut_slice(), &evaluated)?;
        print(out, told(alloc, line, evaluated.answer, agrees)?.as_str())?;
    }
    let last = format!(in alloc; "{number} operations\n")?;
    print(out, last.as_str())?;
    print_weights(alloc, out, routines.as_slice())
}

/// A line `new` of the table begins with a new engine.
fn print_chains<F: Files, O: Sink>(alloc: Global, files: &mut F, out: &mut O) -> Result<(), Stop> {
    let bytes = read(alloc, files, CHAINS)?;
    let Ok(table) = std::str::from_utf8(bytes.as_slice()) else {
        return Err(Stop::Line(0));
    };
    let mut engine = engine_of_chains(alloc)?;
    for line in table.lines() {
        if line == "new" {
            engine = engine_of_chains(alloc)?;
            print(out, "new\n")?;
        } else {
            let left = chain_text(alloc, &mut engine, line)?;
            print(out, format!(in alloc; "chain {line} = {left}\n")?.as_str())?;
        }
    }
    Ok(())
}

fn print_all<F: Files, O: Sink>(alloc: Global, files: &mut F, out: &mut O) -> Result<(), Stop> {
    print_operations(alloc, files, out)?;
    print_blocks(alloc, files, out)?;
    print_chains(alloc, files, out)
}

fn main(rt: HostRuntime) -> ExitCode {
    let alloc = rt.alloc();
    let mut files = DiskFiles::new(alloc, rt);
    let mut out = StdSink::new(rt.stdout());
    match print_all(alloc, &mut files, &mut out) {
        Ok(()) => ExitCode::SUCCESS,
        Err(stop) => {
            let _ = eprintln!(rt; "{stop}");
            ExitCode::from(stop.status())
        }
    }
}
