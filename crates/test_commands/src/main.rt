//! Reads, changes and prints trees and lines of the command language, and numbers scores, as the lines of
//! `commands.txt` say, and prints each line with what came of it.
#![tactic(auto)]

mod lines;
mod scores;
mod trees;
mod values;

use lines::{filled, function_text, pattern_text, printed, verdict};
use scores::scores_text;
use std::alloc::Global;
use test_lines::{Stop, bytes, cut, is_row, many, number, read_table};
use trees::{changed, depths, is_each_set, path_of, read_again, selected};
use values::{bases_text, lists_text};

// The bytes of a word that says how often they stand, and of the text behind it.
fn many_of(alloc: Global, words: &str) -> Result<Vec<u8>, Stop> {
    let (times, text) = cut(words);
    many(alloc, number(times)?, text)
}

fn answer(alloc: Global, line: &str) -> Result<String, Stop> {
    let (word, rest) = cut(line);
    match word {
        "line" => verdict(alloc, rest.as_bytes()),
        "line-of" => verdict(alloc, &bytes(alloc, rest)?),
        "line-many" => verdict(alloc, &many_of(alloc, rest)?),
        "print" => printed(alloc, rest),
        "fill" => filled(alloc, rest),
        "tree" => read_again(alloc, rest.as_bytes()),
        "tree-many" => read_again(alloc, &many_of(alloc, rest)?),
        "set" | "append" | "remove" => changed(alloc, word, rest),
        "get" => selected(alloc, rest),
        "path" => Ok(format!(in alloc; "{}", path_of(alloc, rest)?.is_some())?),
        "depth" => depths(alloc, number(rest)?),
        "places" => Ok(format!(in alloc; "{}", is_each_set(alloc, number(rest)?)?)?),
        "lists" => lists_text(alloc),
        "bases" => bases_text(alloc),
        "function" => function_text(alloc, rest),
        "pattern" => pattern_text(alloc),
        "scores" => scores_text(alloc, rest),
        _ => Err(Stop::Line),
    }
}

fn main(rt: HostRuntime) -> Result<(), Stop> {
    let alloc = rt.alloc();
    let table = read_table(&rt, "commands.txt")?;
    for line in table.as_str().lines() {
        if is_row(line) {
            let answer = answer(alloc, line)?;
            println!(rt; "{line} = {answer}")?;
        } else {
            println!(rt; "{line}")?;
        }
    }
    Ok(())
}
