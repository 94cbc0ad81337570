//! What is kept of one program.

ghost use Rattle.std.specs.Prelude.{◌≡◌, ◌≤◌, ◌+◌, ◌||◌, false};
ghost use Rattle.mc_cmd.specs.Layout.{full_name};
ghost use Rattle.mc_cmd.specs.Pack.{counted};
ghost use Rattle.pk_multi.specs.Entry.{function_of};

use mc_cmd::LOAD_QUOTA;
use mc_engine::Chained;
use mc_layout::LayoutNames;
use mc_nbt::Text;

/// A function that each program has.
#[derive(Clone, Copy)]
pub(crate) enum Entry {
    /// The one that loading runs.
    Load,
    /// The one that a tick runs.
    Tick,
}

/// The full name of the function.
pub(crate) fn start_of(entry: Entry, names: &LayoutNames) -> &Text
    ensures { result.now ≡ full_name names.now.ns (function_of entry) }
{
    match entry {
        Entry::Load => &names.load,
        Entry::Tick => &names.tick,
    }
}

/// What is kept of one program: its names, the weight that its chains used, whether one of them was cut, and its last
/// share.
#[derive(Drop)]
pub(crate) struct Program {
    pub(crate) names: LayoutNames,
    pub(crate) used: u128,
    pub(crate) cut: bool,
    pub(crate) share: u32,
    ghost small: { share ≤ 2147483647 },
}

impl Program {
    ghost use Rattle.pk_multi.specs.Counting.{count_of, no_count};

    /// A program of which nothing ran.
    pub(crate) fn new(names: LayoutNames) -> Program
        ensures names { result.names ≡ names }
        ensures count { count_of result ≡ no_count }
    {
        Program {
            names,
            used: 0,
            cut: false,
            share: LOAD_QUOTA,
        }
    }

    /// Counts a chain that was run with this share.
    pub(crate) fn count(&mut self, chained: Chained, share: u32)
        requires { share ≤ 2147483647 }
        ensures names { self.new.names ≡ self.old.names }
        ensures used { self.new.used ≡ counted (self.old.used + chained.used) }
        ensures cut { self.new.cut ≡ (self.old.cut || chained.cut) }
        ensures share { self.new.share ≡ share }
    {
        self.used = self.used.saturating_add(u128::from(chained.used));
        self.cut = self.cut || chained.cut;
        self.share = share;
    }
}
