//! Lines of the command language, and functions of a pack.

use mc_cmd::{
    AddFault, Index, Line, Pack, Pattern, PatternPart, is_function_name, is_pack_namespace, print,
    weight,
};
use mc_nbt::{Nbt, Text, Texts, read};
use mc_parse::{Filled, ParseFault, fill, parse};
use std::alloc::Global;
use test_lines::Stop;

fn line_of(alloc: Global, text: &str) -> Result<Line, Stop> {
    match parse(alloc, text.as_bytes()) {
        Ok(line) => Ok(line),
        Err(_) => Err(Stop::Line),
    }
}

/// Whether bytes say a line.
pub fn verdict(alloc: Global, bytes: &[u8]) -> Result<String, Stop> {
    let told = match parse(alloc, bytes) {
        Ok(_) => "a line",
        Err(ParseFault::TooLong) => "too long",
        Err(ParseFault::NotInGrammar) => "no line",
        Err(ParseFault::Memory) => return Err(Stop::Memory),
    };
    Ok(String::from_str(alloc, told)?)
}

fn weighed(alloc: Global, line: &Line) -> Result<String, Stop> {
    let weight = weight(line);
    let printed = print(alloc, line)?;
    Ok(format!(in alloc; "{weight}, {printed}")?)
}

/// What a line weighs, and its text as it is printed.
pub fn printed(alloc: Global, text: &str) -> Result<String, Stop> {
    let line = line_of(alloc, text)?;
    weighed(alloc, &line)
}

fn pattern_of(alloc: Global, text: &str) -> Result<Pattern, Stop> {
    match line_of(alloc, text)? {
        Line::Macro(pattern) => Ok(pattern),
        _ => Err(Stop::Line),
    }
}

fn filled_text(alloc: Global, pattern: &Pattern, tree: &Nbt) -> Result<String, Stop> {
    Ok(match fill(alloc, pattern, tree)? {
        Filled::Text(text) => String::from_str(alloc, text.as_str())?,
        Filled::Missing { place } => format!(in alloc; "name {place} is missing")?,
    })
}

/// What the macro line behind ` | ` gives for the tree before it.
pub fn filled(alloc: Global, words: &str) -> Result<String, Stop> {
    let (tree, line) = words.split_once(" | ").ok_or(Stop::Line)?;
    let pattern = pattern_of(alloc, line)?;
    match read(alloc, tree.as_bytes()) {
        Ok(tree) => filled_text(alloc, &pattern, &tree),
        Err(_) => Err(Stop::Line),
    }
}

/// What a pack answers to a function of this name, and to one more of it.
pub fn function_text(alloc: Global, name: &str) -> Result<String, Stop> {
    let ns = Text::new(alloc, "wk")?;
    let name = Text::new(alloc, name)?;
    if !is_pack_namespace(ns.as_bytes()) || !is_function_name(name.as_bytes()) {
        return Err(Stop::Line);
    }
    let exports = Vec::new(alloc);
    let mut pack = Pack::new(alloc, Index { ns, exports });
    let first = pack.add(name.clone()?, Texts::new(alloc)).is_ok();
    let second = match pack.add(name, Texts::new(alloc)) {
        Err(AddFault::Twice) => "twice",
        _ => "otherwise",
    };
    Ok(format!(in alloc; "{first}, {second}")?)
}

/// Whether a name and then a literal make a pattern.
pub fn pattern_text(alloc: Global) -> Result<String, Stop> {
    let mut parts = Vec::new(alloc);
    parts.push(PatternPart::Name(Text::new(alloc, "i")?))?;
    parts.push(PatternPart::Literal(Text::new(alloc, "say ")?))?;
    Ok(format!(in alloc; "{}", Pattern::new(parts).is_some())?)
}
