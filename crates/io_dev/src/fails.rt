ghost use Rattle.std.specs.Prelude.{◌≡◌, [], ◌∷◌, ◌++◌, OnOk, OnErr};
ghost use Rattle.io_dev.specs.Plan.{planned};

use mc_nbt::Memory;
use std::alloc::Global;
use std::marker::Model;

/// A call that is to fail.
#[derive(Clone, Copy, Debug, PartialEq, Eq)]
pub struct Fail {
    /// The number of the call, counted from 0 over all calls of the trait.
    pub call: u64,
    /// How many bytes of its piece a write leaves as it fails; where the piece is shorter, it leaves
    /// the whole piece. A read or a listing has no use for it.
    pub prefix: usize,
}

/// The calls that are to fail. Of two entries with one call the first counts.
#[derive(Debug, Drop)]
pub struct Fails {
    fails: Vec<Fail>,
}

impl Model for Fails {
    ghost use Rattle.std.specs.Prelude.{List};
    ghost use Rattle.io_dev.specs.declared.fails.Fail.{Fail};

    ghost Value = { List Fail };

    ghost view = { λ f. f.fails.items };
}

impl Fails {
    /// No call is to fail.
    pub fn new(alloc: Global) -> Fails
        ensures { result ≡ [] }
    {
        Fails {
            fails: Vec::new(alloc),
        }
    }

    /// Adds an entry at the end.
    ///
    /// # Errors
    ///
    /// `Memory` where there is no room for one more; the list is then as it was.
    pub fn push(&mut self, fail: Fail) -> Result<(), Memory>
        ensures ok { OnOk result (self.new ≡ self.old ++ fail ∷ []) }
        ensures err { OnErr result (self.new ≡ self.old) }
    {
        self.fails.push(fail)?;
        Ok(())
    }

    /// The entries in their order.
    pub fn as_slice(&self) -> &[Fail]
        ensures { result.now ≡ self.now }
    {
        self.fails.as_slice()
    }

    /// The prefix that the call of this number is to leave, if it is to fail.
    pub(crate) fn prefix_at(&self, call: u64) -> Option<usize>
        ensures { result ≡ planned self.now call }
    {
        self.as_slice()
            .iter()
            .find(|fail| fail.call == call)
            .map(|fail| fail.prefix)
    }
}
