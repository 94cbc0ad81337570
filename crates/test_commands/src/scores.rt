//! Scores of a world by their places.
use mc_cmd::Line;
use mc_nbt::Text;
use mc_parse::parse;
use mc_world::{World, is_direct};
use std::alloc::Global;
use test_lines::{Stop, cut, number};

// Gives a world a command, and whether it succeeds.
fn run(alloc: Global, world: &mut World, text: &str) -> Result<String, Stop> {
    let Ok(Line::Plain(cmd)) = parse(alloc, text.as_bytes()) else {
        return Err(Stop::Line);
    };
    if !is_direct(&cmd) {
        return Err(Stop::Line);
    }
    let success = world.apply(&cmd)?.success;
    Ok(String::from_str(alloc, if success { "done" } else { "fails" })?)
}

fn place(alloc: Global, world: &mut World, words: &str) -> Result<usize, Stop> {
    let (holder, objective) = cut(words);
    let holder = Text::new(alloc, holder)?;
    let objective = Text::new(alloc, objective)?;
    Ok(world.place(&holder, &objective)?)
}

fn place_of(word: &str) -> Result<usize, Stop> {
    usize::try_from(number(word)?).map_err(|_| Stop::Line)
}

// The score at a place.
fn at(alloc: Global, world: &World, word: &str) -> Result<String, Stop> {
    let place = place_of(word)?;
    if place >= world.places() {
        return Err(Stop::Line);
    }
    Ok(match world.score_at(place) {
        Some(score) => format!(in alloc; "{score}")?,
        None => String::from_str(alloc, "unset")?,
    })
}

// Sets the score at a place, if its objective stands.
fn put(alloc: Global, world: &mut World, words: &str) -> Result<String, Stop> {
    let (word, value) = cut(words);
    let place = place_of(word)?;
    let value = value.parse::<i32>().map_err(|_| Stop::Line)?;
    if place >= world.places() {
        return Err(Stop::Line);
    }
    if !world.stands_at(place) {
        return Ok(String::from_str(alloc, "no objective")?);
    }
    world.set_at(place, value);
    Ok(String::from_str(alloc, "set")?)
}

fn step(alloc: Global, world: &mut World, text: &str) -> Result<String, Stop> {
    let (word, rest) = cut(text);
    match word {
        "run" => run(alloc, world, rest),
        "place" => Ok(format!(in alloc; "{}", place(alloc, world, rest)?)?),
        "places" => Ok(format!(in alloc; "{}", world.places())?),
        "at" => at(alloc, world, rest),
        "put" => put(alloc, world, rest),
        _ => Err(Stop::Line),
    }
}

/// What the steps, ` | ` between each and the next, come to one after another in a new world.
pub fn scores_text(alloc: Global, steps: &str) -> Result<String, Stop> {
    let mut world = World::new(alloc);
    let mut told = String::new(alloc);
    for text in steps.split(" | ") {
        if !told.is_empty() {
            told.push_str(", ")?;
        }
        told.push_str(step(alloc, &mut world, text)?.as_str())?;
    }
    Ok(told)
}
