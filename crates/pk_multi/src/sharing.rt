// Shares of a budget.
ghost use Rattle.std.specs.Prelude.{◌≡◌, ◌<◌, ◌≤◌};
ghost use Rattle.mc_together.specs.Share as spec;
ghost use Rattle.pk_multi.specs.Entry as entry;
ghost use Rattle.pk_multi.specs.Entry.{AreSmall};

/// The share of the program at place `who` of `count`, of a budget, after so many ticks: an equal part, and what is
/// left over for one of them, for another one in each tick.
#[tactic(auto, using(crate::proofs::ShareLemmas::share_fits))]
pub fn share_of(budget: u32, count: u32, ticks: u128, who: u32) -> u32
    requires { 0 < count }
    ensures share { result ≡ spec.share_of budget count ticks who }
    ensures within { result ≤ budget }
{
    let rest = if u128::from(who) == ticks % u128::from(count) {
        budget % count
    } else {
        0
    };
    budget / count + rest
}

/// What each program gets.
#[derive(Clone, Copy)]
pub(crate) enum Shares {
    /// So much.
    Each(u32),
    /// Its share of this budget.
    Of(u32),
}

/// What the program at a place gets.
pub(crate) fn share_by(shares: Shares, count: u32, ticks: u128, who: u32) -> u32
    requires some { 0 < count }
    requires small { AreSmall shares }
    ensures share { result ≡ entry.share_by shares count ticks who }
    ensures small { result ≤ 2147483647 }
{
    match shares {
        Shares::Each(share) => share,
        Shares::Of(budget) => share_of(budget, count, ticks, who),
    }
}
