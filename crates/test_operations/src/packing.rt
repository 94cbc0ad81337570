//! The pack of an operation: its functions, with the lines that are emitted, and their helpers.
ghost use Rattle.std.specs.Prelude.{◌≡◌, IfOk, true};
ghost use Rattle.mc_cmd.specs.Packing.{are_lines};

use crate::code::Code;
use crate::frame::NAMESPACE;
use crate::stop::Stop;
use cc_line::{Block, Functions};
use mc_cmd::{Index, Pack, is_function_name, is_pack_namespace};
use mc_nbt::{Memory, Text, Texts};
use mc_parse::{ParseFault, parse};
use std::alloc::Global;

/// The function that has the lines of the first block.
pub const FIRST: &str = "op";

/// The function that has those of the turns of a division.
pub const TURNS: &str = "turns";

/// The function that has those of its end.
pub const END: &str = "end";

// Whether each of the texts says a line.
fn all_say_lines(alloc: Global, lines: &Texts) -> Result<bool, Stop>
    ensures { IfOk result (λ b. b ≡ true → are_lines lines.now ≡ true) }
{
    for line in lines.as_slice() {
        match parse(alloc, line.as_bytes()) {
            Ok(_) => (),
            Err(ParseFault::Memory) => return Err(Stop::Memory),
            Err(_) => return Ok(false),
        }
    }
    Ok(true)
}

fn add(alloc: Global, pack: &mut Pack, name: Text, lines: Texts) -> Result<(), Stop> {
    if !is_function_name(name.as_bytes()) || !all_say_lines(alloc, &lines)? {
        return Err(Stop::Pack);
    }
    match pack.add(name, lines) {
        Ok(()) => Ok(()),
        Err(_) => Err(Stop::Pack),
    }
}

fn add_block(alloc: Global, pack: &mut Pack, name: &str, block: &Block) -> Result<(), Stop> {
    let lines = block.lines(alloc, &Text::new(alloc, NAMESPACE)?)?;
    add(alloc, pack, Text::new(alloc, name)?, lines)
}

/// The helpers that the blocks call, each once.
///
/// # Errors
///
/// `Memory` where there is no room for them.
pub fn helpers(alloc: Global, code: &Code, ns: &Text) -> Result<Functions, Memory> {
    let mut found = code.first.helpers(alloc, ns)?;
    if let Some(rest) = &code.rest {
        rest.turns.add_helpers(alloc, ns, &mut found)?;
        rest.end.add_helpers(alloc, ns, &mut found)?;
    }
    Ok(found)
}

/// The pack whose functions have the lines that are emitted.
///
/// # Errors
///
/// `Pack` where what is emitted is no function of a pack, and `Memory`.
pub fn pack_of(alloc: Global, code: &Code) -> Result<Pack, Stop> {
    let ns = Text::new(alloc, NAMESPACE)?;
    if !is_pack_namespace(ns.as_bytes()) {
        return Err(Stop::Pack);
    }
    let helpers = helpers(alloc, code, &ns)?;
    let exports = Vec::new(alloc);
    let mut pack = Pack::new(alloc, Index { ns, exports });
    add_block(alloc, &mut pack, FIRST, &code.first)?;
    if let Some(rest) = &code.rest {
        add_block(alloc, &mut pack, TURNS, &rest.turns)?;
        add_block(alloc, &mut pack, END, &rest.end)?;
    }
    for helper in helpers.into_vec() {
        add(alloc, &mut pack, helper.name, helper.lines)?;
    }
    Ok(pack)
}

/// The pack of these functions, each of one line.
///
/// # Errors
///
/// `Pack` where they are no functions of a pack, and `Memory`.
pub fn pack_of_lines(alloc: Global, functions: &[(&str, &str)]) -> Result<Pack, Stop> {
    let ns = Text::new(alloc, NAMESPACE)?;
    if !is_pack_namespace(ns.as_bytes()) {
        return Err(Stop::Pack);
    }
    let exports = Vec::new(alloc);
    let mut pack = Pack::new(alloc, Index { ns, exports });
    for (name, line) in functions {
        let mut lines = Texts::new(alloc);
        lines.push(Text::new(alloc, line)?)?;
        add(alloc, &mut pack, Text::new(alloc, name)?, lines)?;
    }
    Ok(pack)
}
