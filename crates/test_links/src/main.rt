//! Links the modules of each row of `rows.txt`, and prints why they aren't linked, or how the call of the joined
//! module ended.
#![tactic(auto)]

mod linking;
mod loading;
mod playing;
mod words;

use linking::linked_text;
use loading::{load, load_libraries};
use test_lines::{Stop, cut, read_table};

/// What comes of a row: the main module, the argument of the call, and the libraries.
fn row_text(rt: &HostRuntime, row: &str) -> Result<String, Stop> {
    let (name, rest) = cut(row);
    let (argument, libraries) = cut(rest);
    let argument = argument.parse::<i32>().map_err(|_| Stop::Line)?;
    let main = load(rt, name)?;
    let libs = load_libraries(rt, libraries)?;
    linked_text(rt.alloc(), &libs, &main, argument)
}

fn main(rt: HostRuntime) -> Result<(), Stop> {
    let table = read_table(&rt, "rows.txt")?;
    for row in table.as_str().lines() {
        let told = row_text(&rt, row)?;
        println!(rt; "{row}: {told}")?;
    }
    Ok(())
}
