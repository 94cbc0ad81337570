//! The lines of globals.

ghost use Rattle.std.specs.Prelude.{◌≡◌, IfOk, List, Some, map, option_map, string_bytes};
ghost use Rattle.mc_cmd.specs.Layout.{globals_in, values_in};
ghost use Rattle.mc_nbt.specs.Tree.{int, items};
ghost use Rattle.mc_nbt.specs.View.{list_view, sel, view};
ghost use Rattle.app_words.specs.Lines as report;

use mc_layout::value_of;
use mc_nbt::{Memory, Nbt, NbtList, Sel, Value};
use std::alloc::Global;

// The values that a list of trees tells.
fn values_of_trees(alloc: Global, trees: &[Nbt]) -> Result<Option<Vec<Value>>, Memory>
    ensures { IfOk result (λ o. option_map (λ v. v.items) o ≡ values_in (items (map view trees.now))) }
{
    let mut values = Vec::new(alloc);
    for tree in trees {
        match value_of(tree) {
            Some(value) => values.push(value)?,
            None => return Ok(None),
        }
    }
    Ok(Some(values))
}

// A list of ints tells values only where it has none: an int is no value.
#[tactic(auto, using(crate::proofs::ValuesLemmas::ints_tell_no_values))]
fn values_of_ints(alloc: Global, ints: &[i32]) -> Option<Vec<Value>>
    ensures { option_map (λ v. v.items) result ≡ values_in (items (map int ints.now)) }
{
    match ints {
        [] => Some(Vec::new(alloc)),
        [..] => None,
    }
}

// The values that stand in a list.
fn values_of_list(alloc: Global, list: &NbtList) -> Result<Option<Vec<Value>>, Memory>
    ensures { IfOk result (λ o. option_map (λ v. v.items) o ≡ values_in (list_view list.now)) }
{
    match list {
        NbtList::Ints(ints) => Ok(values_of_ints(alloc, ints.as_slice())),
        NbtList::Trees(trees) => values_of_trees(alloc, trees.as_slice()),
    }
}

// The globals that stand at a place; `None` where it isn't of the layout.
pub(crate) fn values_of(alloc: Global, selected: Option<Sel>) -> Result<Option<Vec<Value>>, Memory>
    ensures { IfOk result (λ o. option_map (λ v. v.items) o ≡ globals_in (option_map sel selected.entry)) }
{
    match selected {
        Some(Sel::Tree(Nbt::List(list))) => values_of_list(alloc, list),
        _ => Ok(None),
    }
}

// The line of a global.
fn global_line(alloc: Global, number: usize, value: Value) -> Result<String, Memory>
    ensures { IfOk result (λ s. string_bytes s ≡ report.global_line number value) }
{
    match value {
        Value::I32(n) => Ok(format!(in alloc; "global {number} {n}\n")?),
        Value::I64(n) => Ok(format!(in alloc; "global {number} {n}\n")?),
    }
}

#[tactic(auto, using(crate::proofs::ValuesLemmas::lines_from))]
fn global_lines(alloc: Global, values: &[Value]) -> Result<String, Memory>
    ensures { IfOk result (λ s. string_bytes s ≡ report.global_lines 0 values.now) }
{
    let mut text = String::new(alloc);
    for (i, value) in values.iter().enumerate() {
        let line = global_line(alloc, i, *value)?;
        text.push_str(line.as_str())?;
    }
    Ok(text)
}

// The lines of the globals.
pub(crate) fn shown_globals(alloc: Global, values: Option<Vec<Value>>) -> Result<String, Memory>
    ensures { IfOk result (λ s. string_bytes s ≡ report.shown_globals (option_map (λ v. v.items) values)) }
{
    match values {
        Some(values) => global_lines(alloc, values.as_slice()),
        None => Ok(String::from_str(alloc, "none\n")?),
    }
}
