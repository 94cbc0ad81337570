// When two conditions are surely the same.
ghost use Rattle.std.specs.Prelude.{◌≡◌};
ghost use Rattle.std.specs.Str.{bytes_eq};
ghost use Rattle.cc_line.specs.View.{check_view, cond_view, conds_view, scratch_text, spot_view};
ghost use Rattle.mc_cmd.specs.View.{cmp_view, range_view};
ghost use Rattle.cc_names.specs.Same as spec;

use cc_line::{Check, Cond, Conds, Scratch, Spot};
use mc_cmd::{Cmp, Range};

pub(crate) fn same_conds(left: Conds, right: Conds) -> bool
    ensures { result ≡ spec.same_conds (conds_view left) (conds_view right) }
{
    match (left, right) {
        (Conds::One(left), Conds::One(right)) => same_cond(left, right),
        (Conds::Two(left, one), Conds::Two(right, other)) => {
            same_cond(one, other) && same_cond(left, right)
        }
        (Conds::One(_), Conds::Two(_, _)) | (Conds::Two(_, _), Conds::One(_)) => false,
    }
}

fn same_cond(left: Cond, right: Cond) -> bool
    ensures { result ≡ spec.same_cond (cond_view left) (cond_view right) }
{
    match (left, right) {
        (Cond::Holds(left), Cond::Holds(right)) => same_check(left, right),
        (Cond::Fails(left), Cond::Fails(right)) => same_check(left, right),
        (Cond::Holds(_), Cond::Fails(_)) | (Cond::Fails(_), Cond::Holds(_)) => false,
    }
}

// A test of a path counts as none of the other's.
fn same_check(left: Check, right: Check) -> bool
    ensures { result ≡ spec.same_check (check_view left) (check_view right) }
{
    match (left, right) {
        (Check::InRange(left, range), Check::InRange(right, other)) => {
            same_spot(left, right) && same_range(range, other)
        }
        (Check::Compare(left, order, one), Check::Compare(right, also, other)) => {
            same_spot(left, right) && same_comparison(order, also) && same_spot(one, other)
        }
        _ => false,
    }
}

fn same_spot(left: Spot, right: Spot) -> bool
    ensures { result ≡ spec.same_spot (spot_view left) (spot_view right) }
{
    match (left, right) {
        (Spot::Scratch(left), Spot::Scratch(right)) => same_scratch(left, right),
        (Spot::Place(left), Spot::Place(right)) => left == right,
        (Spot::Scratch(_), Spot::Place(_)) | (Spot::Place(_), Spot::Scratch(_)) => false,
    }
}

fn same_scratch(left: Scratch, right: Scratch) -> bool
    ensures { result ≡ bytes_eq (scratch_text left) (scratch_text right) }
{
    left.holder() == right.holder()
}

fn same_range(left: Range, right: Range) -> bool
    ensures { result ≡ spec.same_range (range_view left) (range_view right) }
{
    match (left, right) {
        (Range::One(left), Range::One(right)) => left == right,
        (Range::From(left), Range::From(right)) => left == right,
        (Range::To(left), Range::To(right)) => left == right,
        (Range::Both(left, last), Range::Both(right, end)) => left == right && last == end,
        _ => false,
    }
}

fn same_comparison(left: Cmp, right: Cmp) -> bool
    ensures { result ≡ spec.same_comparison (cmp_view left) (cmp_view right) }
{
    matches!(
        (left, right),
        (Cmp::Less, Cmp::Less)
            | (Cmp::LessEqual, Cmp::LessEqual)
            | (Cmp::Equal, Cmp::Equal)
            | (Cmp::GreaterEqual, Cmp::GreaterEqual)
            | (Cmp::Greater, Cmp::Greater)
    )
}
