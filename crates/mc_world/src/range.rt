// How numbers compare, and which are in a range.
ghost use Rattle.std.specs.Prelude.{◌≡◌};
ghost use Rattle.mc_cmd.specs.View.{cmp_view, range_view};
ghost use Rattle.mc_cmd.specs.World as spec;

use mc_cmd::{Cmp, Range};

pub(crate) fn compares(cmp: Cmp, a: i32, b: i32) -> bool
    ensures { result ≡ spec.compares (cmp_view cmp) a b }
{
    match cmp {
        Cmp::Less => a < b,
        Cmp::LessEqual => a <= b,
        Cmp::Equal => a <= b && b <= a,
        Cmp::GreaterEqual => b <= a,
        Cmp::Greater => b < a,
    }
}

pub(crate) fn is_in(range: Range, n: i32) -> bool
    ensures { result ≡ spec.is_in (range_view range) n }
{
    match range {
        Range::One(one) => one <= n && n <= one,
        Range::From(least) => least <= n,
        Range::To(most) => n <= most,
        Range::Both(least, most) => least <= n && n <= most,
    }
}
