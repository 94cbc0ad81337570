//! Calls files and sinks as the lines of `steps.txt` say, and prints each line with what was answered.
#![tactic(auto)]

mod narrow;

use io_dev::{DiskFiles, Fail, Fails, Files, MemFiles, MemSink, Sink, StdSink};
use mc_nbt::Text;
use narrow::{Narrow, NoMemory};
use std::alloc::Global;
use std::fs;
use std::os::unix::fs::symlink;
use test_lines::{Stop, cut, number, read_table};

/// Files and a sink in memory, whose calls fail as they are planned.
#[derive(Drop)]
struct Planned {
    files: MemFiles,
    sink: MemSink,
}

/// Files and streams of the system.
#[derive(Drop)]
struct Real {
    files: DiskFiles<HostRuntime>,
    stream: StdSink<fs::File>,
    narrow: StdSink<Narrow>,
    no_memory: StdSink<NoMemory>,
}

// The calls that fail: pairs of the number of a call and the prefix that it leaves.
fn fails(alloc: Global, words: &str) -> Result<Fails, Stop> {
    let mut fails = Fails::new(alloc);
    for word in words.split(' ').skip(1) {
        let (call, prefix) = word.split_once(':').ok_or(Stop::Line)?;
        fails.push(Fail {
            call: number(call)?,
            prefix: number(prefix)? as usize,
        })?;
    }
    Ok(fails)
}

// Short bytes as the text that they are, and of longer ones their number.
fn shown(alloc: Global, bytes: &[u8]) -> Result<String, Stop> {
    if bytes.len() > 20 {
        return Ok(format!(in alloc; "{} bytes", bytes.len())?);
    }
    let text = std::str::from_utf8(bytes).unwrap_or("no text");
    Ok(String::from_str(alloc, text)?)
}

fn read<F: Files>(alloc: Global, files: &mut F, words: &str) -> Result<String, Stop> {
    let (path, cap) = cut(words);
    match files.read(&Text::new(alloc, path)?, number(cap)?) {
        Ok(bytes) => shown(alloc, bytes.as_slice()),
        Err(refusal) => Ok(refusal.to_string(alloc)?),
    }
}

fn names<F: Files>(alloc: Global, files: &mut F, path: &str) -> Result<String, Stop> {
    match files.names(&Text::new(alloc, path)?) {
        Ok(names) => {
            let mut text = String::new(alloc);
            for name in names.as_slice() {
                text.push_str(name.as_str())?;
                text.push(',')?;
            }
            Ok(text)
        }
        Err(refusal) => Ok(refusal.to_string(alloc)?),
    }
}

fn write<F: Files>(alloc: Global, files: &mut F, words: &str) -> Result<String, Stop> {
    let (path, text) = cut(words);
    match files.write(&Text::new(alloc, path)?, text.as_bytes()) {
        Ok(()) => Ok(String::from_str(alloc, "done")?),
        Err(refusal) => Ok(refusal.to_string(alloc)?),
    }
}

// What files answer to a call.
fn call<F: Files>(alloc: Global, files: &mut F, call: &str) -> Result<String, Stop> {
    let (name, words) = cut(call);
    match name {
        "read" => read(alloc, files, words),
        "names" => names(alloc, files, words),
        "write" => write(alloc, files, words),
        _ => Err(Stop::Line),
    }
}

// What a sink answers to a piece.
fn piece<S: Sink>(alloc: Global, sink: &mut S, piece: &str) -> Result<String, Stop> {
    match sink.write(piece.as_bytes()) {
        Ok(()) => Ok(String::from_str(alloc, "done")?),
        Err(refusal) => Ok(refusal.to_string(alloc)?),
    }
}

fn plan(alloc: Global, words: &str) -> Result<Planned, Stop> {
    Ok(Planned {
        files: MemFiles::new(alloc, fails(alloc, words)?)?,
        sink: MemSink::new(alloc, fails(alloc, words)?)?,
    })
}

fn put(alloc: Global, planned: &mut Planned, path: &str) -> Result<String, Stop> {
    planned.files.put(&Text::new(alloc, path)?, b"123")?;
    Ok(String::new(alloc))
}

fn lent(alloc: Global, planned: &Planned, path: &str) -> Result<String, Stop> {
    match planned.files.bytes(&Text::new(alloc, path)?) {
        Some(bytes) => shown(alloc, bytes),
        None => Ok(String::from_str(alloc, "none")?),
    }
}

// What the line asks of what stands in memory, or else of the system.
fn answer(
    alloc: Global,
    planned: &mut Planned,
    real: &mut Real,
    line: &str,
) -> Result<String, Stop> {
    let (device, words) = cut(line);
    match device {
        "memory" => call(alloc, &mut planned.files, words),
        "sink" => piece(alloc, &mut planned.sink, words),
        "put" => put(alloc, planned, words),
        "lent" => lent(alloc, planned, words),
        "written" => shown(alloc, planned.sink.bytes()),
        "calls" => Ok(format!(in alloc; "{} {}", planned.files.calls(), planned.sink.calls())?),
        "disk" => call(alloc, &mut real.files, words),
        "stream" => piece(alloc, &mut real.stream, words),
        "narrow" => piece(alloc, &mut real.narrow, words),
        "no-memory" => piece(alloc, &mut real.no_memory, words),
        _ => Err(Stop::Line),
    }
}

// Devices of the system, with a folder that a link leads to.
fn open(rt: &HostRuntime) -> Result<Real, Stop> {
    fs::create_dir_all(rt, "here")?;
    symlink(rt, "d", "here/link")?;
    let stream = fs::create(rt, "here.txt")?;
    Ok(Real {
        files: DiskFiles::new(rt.alloc(), rt.clone()?),
        stream: StdSink::new(stream),
        narrow: StdSink::new(Narrow { left: 5 }),
        no_memory: StdSink::new(NoMemory),
    })
}

// The lines up to an empty one are of new devices in memory, whose first line tells the calls that fail.
fn play(rt: &HostRuntime, real: &mut Real, lines: &str) -> Result<(), Stop> {
    let alloc = rt.alloc();
    let mut planned = plan(alloc, lines.lines().next().unwrap_or(""))?;
    for line in lines.lines().skip(1) {
        let answer = answer(alloc, &mut planned, real, line)?;
        println!(rt; "{line} = {answer}")?;
    }
    Ok(())
}

fn main(rt: HostRuntime) -> Result<(), Stop> {
    let table = read_table(&rt, "steps.txt")?;
    let mut real = open(&rt)?;
    for lines in table.as_str().split("\n\n") {
        play(&rt, &mut real, lines)?;
    }
    Ok(())
}
