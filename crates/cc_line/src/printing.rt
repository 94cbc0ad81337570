// The lines of steps and of items.
ghost use Rattle.std.specs.Prelude.{◌≡◌, ◌++◌, IfOk, OnOk};
ghost use Rattle.mc_cmd.specs.Grammar.{cmd_text};
ghost use Rattle.mc_cmd.specs.View.{cmd_view};
ghost use Rattle.cc_line.specs.Item.{item_text, items_texts};
ghost use Rattle.cc_line.specs.OpenStep.{open_texts};
ghost use Rattle.cc_line.specs.Step.{step_text, steps_texts};
ghost use Rattle.cc_line.specs.View.{item_view, items_view, look_up_steps, open_steps_view, step_view, steps_view};
ghost use Rattle.cc_line.specs.View.{table_step};

use crate::command::{command_of, command_of_item, table_command};
use crate::macro_line::print_open_step;
use crate::{Item, OpenStep, Step};
use mc_cmd::{CmdKind, print_kind};
use mc_nbt::{Memory, Text, Texts};
use std::alloc::Global;

/// The line of a step under a namespace.
///
/// # Errors
///
/// `Memory` where there is no room for it, or a place's number or an amount is no int.
pub fn print_step(alloc: Global, step: Step, ns: &Text) -> Result<Text, Memory>
    ensures { IfOk result (λ t. t ≡ step_text ns.now (step_view step)) }
{
    print_command(alloc, command_of(alloc, step, ns)?)
}

/// The lines of the steps under a namespace.
///
/// # Errors
///
/// As `print_step`.
pub fn print_steps(alloc: Global, steps: &[Step], ns: &Text) -> Result<Texts, Memory>
    ensures { IfOk result (λ t. t ≡ steps_texts ns.now (steps_view steps.now)) }
{
    let mut lines = Texts::new(alloc);
    for step in steps {
        lines.push(print_step(alloc, *step, ns)?)?;
    }
    Ok(lines)
}

/// The lines of open steps under a namespace.
///
/// # Errors
///
/// As `print_step`.
pub fn print_open_steps(alloc: Global, steps: &[OpenStep], ns: &Text) -> Result<Texts, Memory>
    ensures { IfOk result (λ t. t ≡ open_texts ns.now (open_steps_view steps.now)) }
{
    let mut lines = Texts::new(alloc);
    push_open_steps(alloc, steps, ns, &mut lines)?;
    Ok(lines)
}

// Adds the lines of open steps to others.
fn push_open_steps(
    alloc: Global,
    steps: &[OpenStep],
    ns: &Text,
    lines: &mut Texts,
) -> Result<(), Memory>
    ensures { OnOk result (lines.new ≡ lines.old ++ open_texts ns.now (open_steps_view steps.now)) }
{
    for step in steps {
        lines.push(print_open_step(alloc, *step, ns)?)?;
    }
    Ok(())
}

// The lines of a helper that looks numbers up in a table.
pub(crate) fn print_look_up(
    alloc: Global,
    table: &[i32],
    steps: &[OpenStep],
    ns: &Text,
) -> Result<Texts, Memory>
    ensures { IfOk result (λ t. t ≡ open_texts ns.now (look_up_steps table.now (open_steps_view steps.now))) }
{
    let mut lines = Texts::new(alloc);
    lines.push(print_table(alloc, table, ns)?)?;
    push_open_steps(alloc, steps, ns, &mut lines)?;
    Ok(lines)
}

// The line that sets the table.
fn print_table(alloc: Global, table: &[i32], ns: &Text) -> Result<Text, Memory>
    ensures { IfOk result (λ t. t ≡ step_text ns.now (table_step table.now)) }
{
    print_command(alloc, table_command(alloc, table, ns)?)
}

fn print_command(alloc: Global, command: CmdKind) -> Result<Text, Memory>
    ensures { IfOk result (λ t. t ≡ cmd_text (cmd_view command)) }
{
    print_kind(alloc, &command)
}

/// The line of an item under a namespace.
///
/// # Errors
///
/// As `print_step`.
pub fn print_item(alloc: Global, item: &Item, ns: &Text) -> Result<Text, Memory>
    ensures { IfOk result (λ t. t ≡ item_text ns.now (item_view item.now)) }
{
    print_command(alloc, command_of_item(alloc, item, ns)?)
}

/// The lines of the items under a namespace.
///
/// # Errors
///
/// As `print_step`.
pub fn print_items(alloc: Global, items: &[Item], ns: &Text) -> Result<Texts, Memory>
    ensures { IfOk result (λ t. t ≡ items_texts ns.now (items_view items.now)) }
{
    let mut lines = Texts::new(alloc);
    for item in items {
        lines.push(print_item(alloc, item, ns)?)?;
    }
    Ok(lines)
}
