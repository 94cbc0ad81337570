// Stops at a trap.
ghost use Rattle.std.specs.Prelude.{◌≡◌};
ghost use Rattle.cc_line.specs.View.{check_view, conds_view, item_view};
ghost use Rattle.mc_cmd.specs.View.{range_view};
ghost use Rattle.cc_stops.specs.Stops as spec;

use cc_line::{Check, Cond, Conds, Item, Scratch, Spot, Step};
use mc_cmd::Range;

/// Whether an item is a way out where a trap is recorded, and in no other state.
pub fn is_trap_stop(item: &Item) -> bool
    ensures { result ≡ spec.is_trap_stop (item_view item.now) }
{
    match item {
        Item::Step(Step::StopWhen(conds)) => tell_trap(*conds),
        _ => false,
    }
}

// Whether conditions say alone that a trap is recorded.
fn tell_trap(conds: Conds) -> bool
    ensures { result ≡ spec.tell_trap (conds_view conds) }
{
    match conds {
        Conds::One(Cond::Holds(check)) => tells_trap(check),
        Conds::One(Cond::Fails(_)) | Conds::Two(_, _) => false,
    }
}

fn tells_trap(check: Check) -> bool
    ensures { result ≡ spec.tells_trap (check_view check) }
{
    match check {
        Check::InRange(Spot::Scratch(scratch), range) => {
            matches!(scratch, Scratch::Trap) && is_from_one(range)
        }
        Check::InRange(Spot::Place(_), _) | Check::Compare(_, _, _) | Check::Stands(_) => false,
    }
}

fn is_from_one(range: Range) -> bool
    ensures { result ≡ spec.is_from_one (range_view range) }
{
    match range {
        Range::From(least) => least == 1,
        Range::One(_) | Range::To(_) | Range::Both(_, _) => false,
    }
}
