//! Chains that call a function with a macro line, and how many filled lines the engine keeps and runs again.

use crate::frame::{apply, command};
use crate::packing::pack_of_lines;
use crate::stop::Stop;
use mc_engine::Engine;
use mc_nbt::Text;
use std::alloc::Global;

/// The function that a chain begins with calls the other one with what stands in a storage.
const FUNCTIONS: [(&str, &str); 2] = [
    ("a", "function wk:b with storage wk:m x"),
    ("b", "$scoreboard players set #a o $(v)"),
];

fn give(alloc: Global, engine: &mut Engine, text: &str) -> Result<(), Stop> {
    let cmd = command(alloc, text.as_bytes())?;
    let applied = apply(engine, &cmd);
    drop(cmd);
    applied
}

/// An engine over the two functions, in whose world the objective `o` stands.
///
/// # Errors
///
/// `Pack` where the functions are none of a pack, and `Memory`.
pub fn engine_of_chains(alloc: Global) -> Result<Engine, Stop> {
    let mut engine = Engine::load(alloc, pack_of_lines(alloc, &FUNCTIONS)?)?;
    give(alloc, &mut engine, "scoreboard objectives add o dummy")?;
    Ok(engine)
}

// The score that the macro line sets.
fn score_text(alloc: Global, engine: &Engine) -> Result<String, Stop> {
    let holder = Text::new(alloc, "#a")?;
    Ok(
        match engine.world().score(&holder, &Text::new(alloc, "o")?) {
            Some(number) => format!(in alloc; "{number}")?,
            None => String::from_str(alloc, "unset")?,
        },
    )
}

/// What a chain with a quota leaves, after a tree was put where the call reads it.
///
/// # Errors
///
/// `Pack` where the line is no quota and a tree, and `Memory`.
pub fn chain_text(alloc: Global, engine: &mut Engine, line: &str) -> Result<String, Stop> {
    let Some((quota, tree)) = line.split_once(' ') else {
        return Err(Stop::Pack);
    };
    let Ok(quota) = quota.parse::<u32>() else {
        return Err(Stop::Pack);
    };
    let put = format!(in alloc; "data modify storage wk:m x set value {tree}")?;
    give(alloc, engine, put.as_str())?;
    let chained = engine.chain(&Text::new(alloc, "wk:a")?, quota)?;
    let score = score_text(alloc, engine)?;
    let (used, cut, kept, hits) = (chained.used, chained.cut, engine.kept(), engine.hits());
    Ok(format!(in alloc; "used {used}, cut {cut}, #a {score}, kept {kept}, hits {hits}")?)
}
