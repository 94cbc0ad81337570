//! Calls what takes a module from its bytes to a validated module and to its cuts, as the rows of the tables say that
//! `tables.txt` names, and prints each row with what was answered.
#![tactic(auto)]

mod call;
mod refusal;
mod spelling;

use call::{answer, told};
use spelling::Frame;
use std::alloc::Global;
use test_lines::{Stop, is_row, read_table};

// What is printed of a line behind itself: nothing, or the answer to a row in this frame.
fn behind(alloc: Global, frame: &Frame<'_>, line: &str) -> Result<String, Stop> {
    if is_row(line) && !line.starts_with("module ") {
        let text = told(alloc, answer(alloc, frame, line))?;
        Ok(format!(in alloc; " = {text}")?)
    } else {
        Ok(String::new(alloc))
    }
}

fn print_table(rt: &HostRuntime, name: &str) -> Result<(), Stop> {
    let alloc = rt.alloc();
    let path = format!(in alloc; "tables/{name}")?;
    let text = read_table(rt, path.as_str())?;
    let mut frame = Frame::new("");
    for line in text.as_str().lines() {
        if let Some(next) = line.strip_prefix("module ") {
            frame = Frame::new(next);
        }
        let behind = behind(alloc, &frame, line)?;
        println!(rt; "{line}{behind}")?;
    }
    Ok(())
}

fn main(rt: HostRuntime) -> Result<(), Stop> {
    let names = read_table(&rt, "tables.txt")?;
    let mut number = 0u64;
    for name in names.as_str().lines() {
        println!(rt; "table {name}\n")?;
        print_table(&rt, name)?;
        println!(rt; "")?;
        number = number.saturating_add(1);
    }
    println!(rt; "{number} tables")?;
    Ok(())
}
