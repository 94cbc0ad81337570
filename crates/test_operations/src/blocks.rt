//! The exact lines of blocks: the operations and places that a table names, with the helpers that they call.

use crate::code::{Code, emit, is_of_pairs};
use crate::name::operation;
use crate::packing::helpers;
use crate::stop::Stop;
use cc_line::{Block, Slots};
use mc_nbt::{Memory, Text, Texts};
use std::alloc::Global;
use wm_ast::NumOp;

/// The namespace under which lines are printed.
const NAMESPACE: &str = "x";

fn place(word: Option<&str>) -> Option<u32> {
    word?.parse::<u32>().ok()
}

// The operation that a line names, and the places of its operands and of its result. With an i64 the place of the first
// operand tells all.
fn named(line: &str) -> Option<(NumOp, Slots)> {
    let mut words = line.split(' ');
    let op = operation(words.next()?)?;
    let a = place(words.next())?;
    let slots = if is_of_pairs(op) {
        Slots { a, b: a, r: a }
    } else {
        let b = place(words.next())?;
        let r = place(words.next())?;
        Slots { a, b, r }
    };
    match words.next() {
        None => Some((op, slots)),
        Some(_) => None,
    }
}

fn add_lines(text: &mut String, lines: &Texts) -> Result<(), Memory> {
    for line in lines.as_slice() {
        write!(text, "    {line}\n")?;
    }
    Ok(())
}

fn add_block(alloc: Global, text: &mut String, block: &Block, ns: &Text) -> Result<(), Stop> {
    let lines = block.lines(alloc, ns)?;
    Ok(add_lines(text, &lines)?)
}

fn add_blocks(alloc: Global, text: &mut String, code: &Code, ns: &Text) -> Result<(), Stop> {
    add_block(alloc, text, &code.first, ns)?;
    if let Some(rest) = &code.rest {
        write!(text, "  turns\n")?;
        add_block(alloc, text, &rest.turns, ns)?;
        write!(text, "  end\n")?;
        add_block(alloc, text, &rest.end, ns)?;
    }
    Ok(())
}

fn add_helpers(alloc: Global, text: &mut String, code: &Code, ns: &Text) -> Result<(), Stop> {
    let helpers = helpers(alloc, code, ns)?;
    for helper in helpers.as_slice() {
        let name = &helper.name;
        write!(text, "  helper {name}\n")?;
        add_lines(text, &helper.lines)?;
    }
    Ok(())
}

/// The lines of the blocks that a line of the table names, and those of their helpers.
///
/// # Errors
///
/// `Pack` where the line names no operation with its places, and `Memory`.
pub fn block_text(alloc: Global, line: &str) -> Result<String, Stop> {
    let (op, slots) = named(line).ok_or(Stop::Pack)?;
    let code = emit(alloc, op, slots)?.ok_or(Stop::Pack)?;
    let ns = Text::new(alloc, NAMESPACE)?;
    let mut text = format!(in alloc; "block {line}\n")?;
    add_blocks(alloc, &mut text, &code, &ns)?;
    add_helpers(alloc, &mut text, &code, &ns)?;
    Ok(text)
}
