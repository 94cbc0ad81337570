//! What stands in the world of a pack from instantiation on, as the commands that lay it down.

use crate::frame::{NAMESPACE, apply, command};
use crate::stop::Stop;
use cc_line::{Act, Key, Leaf, Scratch, Site, Spot, Step, Store, Table, print_step};
use mc_cmd::Cmd;
use mc_engine::Engine;
use mc_nbt::Text;
use std::alloc::Global;

/// The constants.
const NUMBERS: [(Scratch, i32); 4] = [
    (Scratch::Two, 2),
    (Scratch::ThirtyTwo, 32),
    (Scratch::HalfWord, 65_536),
    (Scratch::Least, i32::MIN),
];

/// The tables of shifts and rotations.
const TABLES_OF_COUNTS: [(Key, Table); 5] = [
    (Key::ShiftLeft, Table::ShiftLeft),
    (Key::ShiftRightSigned, Table::ShiftRightSigned),
    (Key::ShiftRight, Table::ShiftRight),
    (Key::RotateLeft, Table::RotateLeft),
    (Key::RotateRight, Table::RotateRight),
];

/// The tables of bytes.
const TABLES_OF_BYTES: [(Key, Table); 4] = [
    (Key::LowByte, Table::LowByte),
    (Key::HighByte, Table::HighByte),
    (Key::ByteAnd, Table::ByteAnd),
    (Key::RaisedAnd, Table::RaisedAnd),
];

/// The commands that lay down what operations presume.
#[derive(Drop)]
pub struct Standing {
    always: Vec<Cmd>,
    bytes: Vec<Cmd>,
}

// The command of an act, read from its line.
fn command_of(alloc: Global, act: Act) -> Result<Cmd, Stop> {
    let line = print_step(alloc, Step::Run(act), &Text::new(alloc, NAMESPACE)?)?;
    command(alloc, line.as_bytes())
}

fn push_number(
    alloc: Global,
    score: Scratch,
    value: i32,
    commands: &mut Vec<Cmd>,
) -> Result<(), Stop> {
    let spot = Spot::Scratch(score);
    commands.push(command_of(alloc, Act::SetSpot { spot, value })?)?;
    Ok(())
}

fn push_table(alloc: Global, key: Key, table: Table, commands: &mut Vec<Cmd>) -> Result<(), Stop> {
    let site = Site::at(Store::Rest, key);
    let leaf = Leaf::Table(table);
    commands.push(command_of(alloc, Act::SetSite { site, leaf })?)?;
    Ok(())
}

fn apply_all(engine: &mut Engine, commands: &[Cmd]) -> Result<(), Stop> {
    for cmd in commands {
        apply(engine, cmd)?;
    }
    Ok(())
}

impl Standing {
    /// All of them.
    ///
    /// # Errors
    ///
    /// `Pack` where a line is no command, and `Memory`.
    pub fn new(alloc: Global) -> Result<Standing, Stop> {
        let mut always = Vec::new(alloc);
        for (score, value) in NUMBERS {
            push_number(alloc, score, value, &mut always)?;
        }
        for (key, table) in TABLES_OF_COUNTS {
            push_table(alloc, key, table, &mut always)?;
        }
        let mut bytes = Vec::new(alloc);
        for (key, table) in TABLES_OF_BYTES {
            push_table(alloc, key, table, &mut bytes)?;
        }
        Ok(Standing { always, bytes })
    }

    /// Lays it down, the tables of bytes only if so asked.
    ///
    /// # Errors
    ///
    /// `Pack` where a command runs a function, and `Memory`.
    pub fn lay(&self, engine: &mut Engine, with_bytes: bool) -> Result<(), Stop> {
        apply_all(engine, self.always.as_slice())?;
        if with_bytes {
            apply_all(engine, self.bytes.as_slice())?;
        }
        Ok(())
    }
}
