ghost use Rattle.std.specs.Prelude.{◌≡◌, None, Some};
ghost use Rattle.io_dev.specs.Faults.{Rose, rise};

use mc_nbt::Text;

/// Counts of faults, and the path that the last one was about.
#[derive(Debug, Drop)]
pub struct Faults {
    pub reads: u64,
    pub writes: u64,
    pub last: Option<Text>,
}

impl Faults {
    /// No fault yet.
    pub fn new() -> Faults
        ensures reads { result.reads ≡ 0 }
        ensures writes { result.writes ≡ 0 }
        ensures last { result.last ≡ None }
    {
        Faults {
            reads: 0,
            writes: 0,
            last: None,
        }
    }

    /// Counts a read or a listing that failed.
    pub fn fail_read(&mut self, path: Text)
        ensures reads { self.new.reads ≡ rise self.old.reads }
        ensures writes { self.new.writes ≡ self.old.writes }
        ensures rose { Rose self.old.reads self.new.reads }
        ensures last { self.new.last ≡ Some path }
    {
        self.reads = self.reads.saturating_add(1);
        self.last = Some(path);
    }

    /// Counts a write that failed.
    pub fn fail_write(&mut self, path: Text)
        ensures reads { self.new.reads ≡ self.old.reads }
        ensures writes { self.new.writes ≡ rise self.old.writes }
        ensures rose { Rose self.old.writes self.new.writes }
        ensures last { self.new.last ≡ Some path }
    {
        self.writes = self.writes.saturating_add(1);
        self.last = Some(path);
    }
}
