ghost use Rattle.std.specs.Prelude.{◌≡◌, take};
ghost use Rattle.io_dev.specs.Plan.{planned};
ghost use Rattle.io_dev.specs.Faults.{rise};

use crate::Fails;

/// The calls that are to fail, and how many calls there have been.
#[derive(Debug, Drop)]
pub struct Plan {
    pub fails: Fails,
    pub calls: u64,
}

impl Plan {
    /// No call yet.
    pub fn new(fails: Fails) -> Plan
        ensures fails { result.fails ≡ fails }
        ensures calls { result.calls ≡ 0 }
    {
        Plan { fails, calls: 0 }
    }

    /// Counts a call, and gives the prefix that it is to leave if it is to fail.
    pub fn next_call(&mut self) -> Option<usize>
        ensures prefix { result ≡ planned self.old.fails self.old.calls }
        ensures fails { self.new.fails ≡ self.old.fails }
        ensures calls { self.new.calls ≡ rise self.old.calls }
    {
        let prefix = self.fails.prefix_at(self.calls);
        self.calls = self.calls.saturating_add(1);
        prefix
    }
}

/// The first `prefix` bytes, and all of them where there are no more.
pub fn prefix_of(bytes: &[u8], prefix: usize) -> &[u8]
    ensures { result.now ≡ take prefix bytes.now }
{
    &bytes[..prefix.min(bytes.len())]
}
