// Which items name the next piece, and where its name is needed.
ghost use Rattle.std.specs.Prelude.{◌≡◌};
ghost use Rattle.cc_line.specs.View.{act_view, item_view, step_view};
ghost use Rattle.cc_names.specs.Names as spec;

use crate::speaks::{is_next, item_speaks};
use cc_line::{Act, Below, Item, Step};
use cc_stops::is_trap_stop;

// Whether an act writes all that stands under the key of the next piece. Each leaf may stand under a key.
#[tactic(auto, using(crate::proofs::Leaves::leaf_stands))]
pub(crate) fn act_names_next(act: Act) -> bool
    ensures { result ≡ spec.act_names_next (act_view act) }
{
    match act {
        Act::SetSite { site, .. } => {
            is_next(site.store, site.key) && matches!(site.below, Below::Nothing)
        }
        _ => false,
    }
}

fn step_names_next(step: Step) -> bool
    ensures { result ≡ spec.step_names_next (step_view step) }
{
    match step {
        Step::Run(act) | Step::When(_, act) => act_names_next(act),
        Step::StopWhen(_) => false,
    }
}

fn item_names_next(item: &Item) -> bool
    ensures { result ≡ spec.item_names_next (item_view item.now) }
{
    match item {
        Item::Step(step) => step_names_next(*step),
        // A table is under a key of its own.
        Item::Call { .. } | Item::Fill { .. } | Item::LookUp { .. } | Item::Table(_) => false,
    }
}

fn surely_names_next(item: &Item) -> bool
    ensures { result ≡ spec.surely_names_next (item_view item.now) }
{
    match item {
        Item::Step(Step::Run(act)) => act_names_next(*act),
        _ => false,
    }
}

fn is_way_out(item: &Item) -> bool
    ensures { result ≡ spec.is_way_out (item_view item.now) }
{
    matches!(item, Item::Step(Step::StopWhen(_)))
}

// Whether the name of the next piece is needed before an item, by whether it is behind it.
pub(crate) fn needed_before(item: &Item, behind: bool) -> bool
    ensures { result ≡ spec.needed_before (item_view item.now) behind }
{
    if is_trap_stop(item) {
        return behind;
    }
    is_way_out(item) || !surely_names_next(item) && (item_speaks(item) || behind)
}

// Whether an item does nothing but name the next piece where the name isn't needed behind it.
pub(crate) fn is_needless(item: &Item, behind: bool) -> bool
    ensures { result ≡ spec.is_needless (item_view item.now) behind }
{
    item_names_next(item) && !behind
}
