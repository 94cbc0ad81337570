//! Plays the calls of each module that `modules.txt` names by the reduction of the module, and prints how each ended.
#![tactic(auto)]

mod line;
mod loading;
mod playing;

use loading::load;
use playing::line_text;
use test_lines::{Stop, read_table};
use wm_reduce::Reduction;
use wm_valid::Typed;

/// Plays the lines of a text over a module, and prints each with what came of it.
fn play_lines(rt: &HostRuntime, typed: &Typed, text: &str) -> Result<(), Stop> {
    let alloc = rt.alloc();
    let mut reduction = Reduction::start(alloc, typed)?;
    for line in text.lines() {
        let told = line_text(alloc, &mut reduction, typed.module(), line)?;
        print!(rt; "{told}")?;
    }
    Ok(())
}

fn play(rt: &HostRuntime, title: &str) -> Result<(), Stop> {
    let alloc = rt.alloc();
    let module = format!(in alloc; "modules/{title}.wasm")?;
    let calls = format!(in alloc; "modules/{title}.calls")?;
    let typed = load(rt, module.as_str())?;
    let text = read_table(rt, calls.as_str())?;
    play_lines(rt, &typed, text.as_str())
}

fn main(rt: HostRuntime) -> Result<(), Stop> {
    let titles = read_table(&rt, "modules.txt")?;
    let mut number = 0u64;
    for title in titles.as_str().lines() {
        println!(rt; "module {title}")?;
        play(&rt, title)?;
        println!(rt; "")?;
        number = number.saturating_add(1);
    }
    println!(rt; "{number} modules")?;
    Ok(())
}
