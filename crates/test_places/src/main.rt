//! Makes worlds by the commands of `worlds.txt`, asks of each where the program of a module is, and prints each line with
//! what came of it.
#![tactic(auto)]

mod loading;

use loading::{command_of, constant};
use mc_cmd::Cmd;
use mc_inspect::{InspectFault, inspect};
use mc_nbt::Text;
use mc_world::{World, is_direct};
use std::alloc::Global;
use test_lines::{Stop, cut, is_row, read_table};
use wm_valid::Typed;
use wm_view::Inspection;

// What was answered to who asked where the program is.
fn told(alloc: Global, answer: Result<Inspection, InspectFault>) -> Result<String, Stop> {
    match answer {
        Ok(shown) => Ok(format!(in alloc; "frames {}", shown.frames.len())?),
        Err(InspectFault::NotRunning) => Ok(String::from_str(alloc, "not running")?),
        Err(InspectFault::Starting) => Ok(String::from_str(alloc, "starting")?),
        Err(InspectFault::NoPlace { piece: None }) => Ok(String::from_str(alloc, "no place")?),
        Err(
            InspectFault::NoPlace {
                piece: Some(number),
            },
        ) => { Ok(format!(in alloc; "no place, piece {number}")?) }
        Err(InspectFault::Memory) => Err(Stop::Memory),
    }
}

fn apply(world: &mut World, cmd: &Cmd) -> Result<(), Stop> {
    if !is_direct(cmd) {
        return Err(Stop::Line);
    }
    world.apply(cmd)?;
    Ok(())
}

// Does what a command says.
fn change(alloc: Global, world: &mut World, text: &str) -> Result<(), Stop> {
    let cmd = command_of(alloc, text)?;
    apply(world, &cmd)
}

// What comes of a line.
fn answer(alloc: Global, typed: &Typed, world: &mut World, line: &str) -> Result<String, Stop> {
    let (word, rest) = cut(line);
    match word {
        "new" => {
            *world = World::new(alloc);
            Ok(String::from_str(alloc, "new")?)
        }
        "do" => {
            change(alloc, world, rest)?;
            Ok(String::from_str(alloc, "done")?)
        }
        "where" => {
            let ns = Text::new(alloc, rest)?;
            told(alloc, inspect(alloc, typed, world, &ns))
        }
        _ => Err(Stop::Line),
    }
}

fn main(rt: HostRuntime) -> Result<(), Stop> {
    let alloc = rt.alloc();
    let typed = constant(alloc)?;
    let table = read_table(&rt, "worlds.txt")?;
    let mut world = World::new(alloc);
    for line in table.as_str().lines() {
        if is_row(line) {
            let answer = answer(alloc, &typed, &mut world, line)?;
            println!(rt; "{line} = {answer}")?;
        } else {
            println!(rt; "{line}")?;
        }
    }
    Ok(())
}
