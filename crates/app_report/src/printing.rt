//! What is printed of the pack of a namespace in a world.

ghost use Rattle.std.specs.Prelude.{◌≡◌, ◌≤◌, ◌++◌, IfOk, codes, string_bytes, true};
ghost use Rattle.mc_cmd.specs.Layout as layout;
ghost use Rattle.mc_cmd.specs.Packing.{is_pack_namespace};
ghost use Rattle.mc_world.specs.WorldView.{seen};
ghost use Rattle.app_words.specs.Lines as report;

use crate::dumping::row_lines;
use crate::lines::shown;
use crate::pages::{pages_of, shown_bytes};
use crate::values::{shown_globals, values_of};
use mc_layout::{LayoutNames, answer};
use mc_nbt::{Memory, Text};
use mc_world::World;
use std::alloc::Global;

fn answer_line(alloc: Global, world: &World, names: &LayoutNames) -> Result<String, Memory>
    ensures { IfOk result (λ s. string_bytes s ≡ report.show_text names.now.ns (seen world.now)) }
{
    shown(alloc, answer(world, names))
}

fn global_lines(alloc: Global, world: &World, names: &LayoutNames) -> Result<String, Memory>
    ensures { IfOk result (λ s. string_bytes s ≡ report.globals_text names.now.ns (seen world.now)) }
{
    let values = values_of(alloc, world.selected(&names.memory, &names.globals))?;
    shown_globals(alloc, values)
}

fn byte_lines(alloc: Global, world: &World, names: &LayoutNames) -> Result<String, Memory>
    ensures { IfOk result (λ s. string_bytes s ≡ report.shown_rows (layout.memory names.now.ns (seen world.now))) }
{
    match pages_of(world.selected(&names.memory, &names.pages)) {
        Some(pages) => row_lines(alloc, pages),
        None => Ok(String::from_str(alloc, "none\n")?),
    }
}

// The lines of a dump.
fn with_end(mut text: String, globals: &str, rows: &str) -> Result<String, Memory>
    ensures { IfOk result (λ s. string_bytes s
        ≡ string_bytes text ++ (globals.now ++ (rows.now ++ report.ended_line (codes "end")))) }
{
    text.push_str(globals)?;
    text.push_str(rows)?;
    text.push_str("end\n")?;
    Ok(text)
}

/// The line of what the pack of a namespace answers.
///
/// # Errors
///
/// `Memory` where there is no room for the line.
pub fn show(alloc: Global, world: &World, ns: &Text) -> Result<Text, Memory>
    requires { is_pack_namespace ns.now ≡ true }
    ensures { IfOk result (λ t. t ≡ report.show_text ns.now (seen world.now)) }
{
    let names = LayoutNames::new(alloc, ns)?;
    Ok(Text::from(answer_line(alloc, world, &names)?))
}

/// A line for each global of the pack of a namespace, or `none` where they aren't of the layout.
///
/// # Errors
///
/// `Memory` where there is no room for the lines.
pub fn globals(alloc: Global, world: &World, ns: &Text) -> Result<Text, Memory>
    requires { is_pack_namespace ns.now ≡ true }
    ensures { IfOk result (λ t. t ≡ report.globals_text ns.now (seen world.now)) }
{
    let names = LayoutNames::new(alloc, ns)?;
    Ok(Text::from(global_lines(alloc, world, &names)?))
}

/// The line of `len` bytes of the memory of the pack of a namespace, from the address `at` on, in hex; or `outside`
/// where the memory ends before them, or `none` where it isn't of the layout. `len` is from 1 to 65,536.
///
/// # Errors
///
/// `Memory` where there is no room for the line.
pub fn memory(alloc: Global, world: &World, ns: &Text, at: u32, len: u32) -> Result<Text, Memory>
    requires namespace { is_pack_namespace ns.now ≡ true }
    requires least { 1 ≤ len }
    requires most { len ≤ 65536 }
    ensures { IfOk result (λ t. t ≡ report.memory_text ns.now at len (seen world.now)) }
{
    let names = LayoutNames::new(alloc, ns)?;
    match pages_of(world.selected(&names.memory, &names.pages)) {
        Some(pages) => Ok(Text::from(shown_bytes(alloc, pages, at, len)?)),
        None => Text::new(alloc, "none\n"),
    }
}

/// The line of `show` of the pack of a namespace, the lines of its globals, a line for each row of 16 bytes of its
/// memory that aren't all zero, and `end`. In place of the rows stands `none` where the memory isn't of the layout.
///
/// # Errors
///
/// `Memory` where there is no room for the lines.
pub fn dump(alloc: Global, world: &World, ns: &Text) -> Result<Text, Memory>
    requires { is_pack_namespace ns.now ≡ true }
    ensures { IfOk result (λ t. t ≡ report.dump_text ns.now (seen world.now)) }
{
    let names = LayoutNames::new(alloc, ns)?;
    let answer = answer_line(alloc, world, &names)?;
    let globals = global_lines(alloc, world, &names)?;
    let rows = byte_lines(alloc, world, &names)?;
    let text = with_end(answer, globals.as_str(), rows.as_str())?;
    Ok(Text::from(text))
}
