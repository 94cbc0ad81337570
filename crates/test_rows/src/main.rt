//! Runs the program over files in memory for each row of the folder `rows`, and prints how each run
//! ends. Then it reads the files of the folder `wrong`, none of which is a row, and prints the first
//! line of each that isn't of the format.
//!
//! Its exit status is 0 where every file was read so, and else the number of the cause, which is told
//! on standard error: 1 a file that is not as its folder wants it, 2 a read or a listing, 3 the output,
//! 4 out of memory.
#![tactic(auto)]

mod printing;
mod reading;
mod row;
mod running;
mod stop;
mod swapped;

use io_dev::{DiskFiles, Files, Sink, StdSink};
use mc_nbt::{Bytes, Text, Texts};
use printing::print_end;
use reading::{Fault, read_row};
use row::Row;
use running::{End, run_cut, run_whole};
use std::alloc::Global;
use std::process::ExitCode;
use stop::Stop;

const ROWS: &str = "rows";

const WRONG: &str = "wrong";

/// The most bytes of a row's file.
const ROW_CAP: u64 = 1_048_576;

/// The names of the files in a folder.
fn names<F: Files>(alloc: Global, files: &mut F, folder: &str) -> Result<Texts, Stop> {
    let dir = Text::new(alloc, folder)?;
    match files.names(&dir) {
        Ok(names) => Ok(names),
        Err(_) => Err(Stop::Unread(dir)),
    }
}

fn path_of(alloc: Global, folder: &str, name: &Text) -> Result<Text, Stop> {
    Ok(Text::from(format!(in alloc; "{folder}/{name}")?))
}

fn read<F: Files>(files: &mut F, path: &Text) -> Result<Bytes, Stop> {
    match files.read(path, ROW_CAP) {
        Ok(bytes) => Ok(bytes),
        Err(_) => Err(Stop::Unread(path.clone()?)),
    }
}

/// The row that stands in this file of the folder of rows.
fn load<F: Files>(alloc: Global, files: &mut F, name: &Text) -> Result<Row, Stop> {
    let path = path_of(alloc, ROWS, name)?;
    let bytes = read(files, &path)?;
    match read_row(alloc, bytes.as_slice()) {
        Ok(row) => Ok(row),
        Err(Fault::Line(line)) => Err(Stop::NoRow(path, line)),
        Err(Fault::Memory) => Err(Stop::Memory),
    }
}

/// The number of the first line for which this file of the folder of wrong rows is no row.
fn first_wrong<F: Files>(alloc: Global, files: &mut F, name: &Text) -> Result<u64, Stop> {
    let path = path_of(alloc, WRONG, name)?;
    let bytes = read(files, &path)?;
    match read_row(alloc, bytes.as_slice()) {
        Ok(_) => Err(Stop::IsRow(path)),
        Err(Fault::Line(line)) => Ok(line),
        Err(Fault::Memory) => Err(Stop::Memory),
    }
}

fn print<O: Sink>(out: &mut O, text: &str) -> Result<(), Stop> {
    match out.write(text.as_bytes()) {
        Ok(()) => Ok(()),
        Err(_) => Err(Stop::Output),
    }
}

fn print_run<O: Sink>(alloc: Global, out: &mut O, title: &str, end: &End) -> Result<(), Stop> {
    let text = print_end(alloc, title, end)?;
    print(out, text.as_str())
}

/// Runs a row, for each proper prefix of a file where it asks for that, and prints each run.
fn print_row<O: Sink>(alloc: Global, out: &mut O, name: &Text, row: &Row) -> Result<(), Stop> {
    let Some(cut) = &row.prefixes else {
        let end = run_whole(alloc, row)?;
        return print_run(alloc, out, name.as_str(), &end);
    };
    for length in 0..row.length_of(cut) {
        let end = run_cut(alloc, row, cut, length)?;
        let title = format!(in alloc; "{name} {length}")?;
        print_run(alloc, out, title.as_str(), &end)?;
    }
    Ok(())
}

fn print_rows<F: Files, O: Sink>(alloc: Global, files: &mut F, out: &mut O) -> Result<(), Stop> {
    let names = names(alloc, files, ROWS)?;
    for name in names.as_slice() {
        let row = load(alloc, files, name)?;
        print_row(alloc, out, name, &row)?;
    }
    let last = format!(in alloc; "{} rows\n\n", names.len())?;
    print(out, last.as_str())
}

fn print_wrong<F: Files, O: Sink>(alloc: Global, files: &mut F, out: &mut O) -> Result<(), Stop> {
    let names = names(alloc, files, WRONG)?;
    for name in names.as_slice() {
        let line = first_wrong(alloc, files, name)?;
        let told = format!(in alloc; "{name}: line {line}\n")?;
        print(out, told.as_str())?;
    }
    let last = format!(in alloc; "{} wrong rows\n", names.len())?;
    print(out, last.as_str())
}

fn print_all<F: Files, O: Sink>(alloc: Global, files: &mut F, out: &mut O) -> Result<(), Stop> {
    print_rows(alloc, files, out)?;
    print_wrong(alloc, files, out)
}

fn main(rt: HostRuntime) -> ExitCode {
    let alloc = rt.alloc();
    let mut files = DiskFiles::new(alloc, rt);
    let mut out = StdSink::new(rt.stdout());
    match print_all(alloc, &mut files, &mut out) {
        Ok(()) => ExitCode::SUCCESS,
        Err(stop) => {
            let _ = eprintln!(rt; "{stop}");
            ExitCode::from(stop.status())
        }
    }
}
