// Whether a trap may be recorded where items reach their end.
ghost use Rattle.std.specs.Prelude.{◌≡◌, false};
ghost use Rattle.std.specs.Str.{bytes_eq};
ghost use Rattle.cc_line.specs.Key.{score_trap};
ghost use Rattle.cc_line.specs.View.{act_view, item_view, items_view, open_act_view, open_step_view, open_steps_view};
ghost use Rattle.cc_line.specs.View.{scratch_text, spot_view, step_view};
ghost use Rattle.cc_tails.specs.Tails as spec;
ghost use Rattle.cc_tails.specs.steps.Ways as ways;

use cc_line::{Act, Item, OpenAct, OpenStep, Scratch, Spot, Step};
use cc_stops::is_trap_stop;

fn is_trap(scratch: Scratch) -> bool
    ensures { result ≡ bytes_eq (scratch_text scratch) score_trap }
{
    matches!(scratch, Scratch::Trap)
}

fn spot_is_trap(spot: Spot) -> bool
    ensures { result ≡ spec.spot_is_trap (spot_view spot) }
{
    match spot {
        Spot::Scratch(scratch) => is_trap(scratch),
        Spot::Place(_) => false,
    }
}

// Whether an act writes the score of the trap.
fn act_traps(act: Act) -> bool
    ensures { result ≡ spec.act_traps (act_view act) }
{
    match act {
        Act::SetSpot { spot, .. }
        | Act::Increase { spot, .. }
        | Act::Decrease { spot, .. }
        | Act::Combine { to: spot, .. } => spot_is_trap(spot),
        Act::LoadPlace { to, .. } | Act::LoadSite { to, .. } => is_trap(to),
        _ => false,
    }
}

fn step_traps(step: Step) -> bool
    ensures { result ≡ spec.step_traps (step_view step) }
{
    match step {
        Step::Run(act) | Step::When(_, act) => act_traps(act),
        Step::StopWhen(_) => false,
    }
}

fn open_act_traps(act: OpenAct) -> bool
    ensures { result ≡ spec.open_act_traps (open_act_view act) }
{
    match act {
        OpenAct::SetSpot { spot, .. } | OpenAct::Combine { to: spot, .. } => spot_is_trap(spot),
        OpenAct::LoadSite { to, .. } => is_trap(to),
        _ => false,
    }
}

fn open_step_traps(step: OpenStep) -> bool
    ensures { result ≡ spec.open_step_traps (open_step_view step) }
{
    match step {
        OpenStep::Closed(step) => step_traps(step),
        OpenStep::Run(act) | OpenStep::When(_, act) => open_act_traps(act),
    }
}

fn open_steps_trap(steps: &[OpenStep]) -> bool
    ensures { result ≡ spec.open_steps_trap (open_steps_view steps.now) }
{
    let mut traps = false;
    for step in steps {
        traps = traps || open_step_traps(*step);
    }
    traps
}

// Whether items write it, or their helpers do.
#[cycle(traps)]
fn items_trap(items: &[Item]) -> bool
    ensures { result ≡ spec.items_trap (items_view items.now) }
{
    let mut traps = false;
    for item in items {
        traps = traps || item_traps(item);
    }
    traps
}

#[cycle(traps)]
fn item_traps(item: &Item) -> bool
    ensures { result ≡ spec.item_traps (item_view item.now) }
{
    match item {
        Item::Step(step) => step_traps(*step),
        Item::Call { items, .. } => items_trap(items.as_slice()),
        Item::Fill { steps, .. } | Item::LookUp { steps, .. } => open_steps_trap(steps.as_slice()),
        // The table is under a key.
        Item::Table(_) => false,
    }
}

// Whether a trap may be recorded behind an item, by whether one may be before it.
fn trapped_behind(trapped: bool, item: &Item) -> bool
    ensures { result ≡ ways.trapped_behind trapped (item_view item.now) }
{
    !is_trap_stop(item) && (trapped || item_traps(item))
}

// Whether a trap may be recorded where items reach their end that are begun without one.
pub(crate) fn ends_trapped(items: &[Item]) -> bool
    ensures { result ≡ spec.ends_trapped false (items_view items.now) }
{
    let mut trapped = false;
    for item in items {
        trapped = trapped_behind(trapped, item);
    }
    trapped
}
