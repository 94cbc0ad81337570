ghost use Rattle.std.specs.Prelude.{◌≡◌, IfOk};
ghost use Rattle.io_dev.specs.Sink.{IsSinkWritten};
ghost use Rattle.io_dev.specs.Plan.{must_fail, WriteFailsIf};
ghost use Rattle.io_dev.specs.MemSink.{first_state, state_of, sink_of, after_write};

use crate::plan::{Plan, prefix_of};
use crate::{Fails, Sink, WriteAnswer};
use mc_nbt::Memory;
use std::alloc::Global;

/// A sink in memory, for tests. It tells what it took, and fails at the calls that its plan names.
///
/// Its writes are counted from 0. The count stops at 2^64 - 1, so that each call from the one of that
/// number on has that number, and fails if it is planned.
#[derive(Debug, Drop)]
pub struct MemSink {
    bytes: Vec<u8>,
    plan: Plan,
    faults: u64,
}

impl MemSink {
    /// Nothing is written, with no call yet and no fault.
    ///
    /// # Errors
    ///
    /// `Memory` where there was no memory.
    pub fn new(alloc: Global, fails: Fails) -> Result<MemSink, Memory>
        ensures { IfOk result (λ sink. state_of sink ≡ first_state fails) }
    {
        Ok(MemSink {
            bytes: Vec::new(alloc),
            plan: Plan::new(fails),
            faults: 0,
        })
    }

    /// What was written.
    pub fn bytes(&self) -> &[u8]
        ensures { result.now ≡ (state_of self.now).written }
    {
        self.bytes.as_slice()
    }

    /// How many calls there were, up to 2^64 - 1.
    pub fn calls(&self) -> u64
        ensures { result ≡ (state_of self.now).calls }
    {
        self.plan.calls
    }
}

impl Sink for MemSink {
    ghost state = { sink_of };

    /// As the trait says. It fails exactly where the call is planned, but for want of memory, and then
    /// appends the planned prefix of the bytes. After `Memory` nothing has changed but the number of
    /// calls.
    fn write(&mut self, bytes: &[u8]) -> Result<(), WriteAnswer>
        ensures written { IsSinkWritten (sink_of self.old) (sink_of self.new) bytes.now result }

        // What a plan adds.
        ensures fails { WriteFailsIf
            (must_fail (state_of self.old).fails (state_of self.old).calls) result }
        ensures after { state_of self.new ≡ after_write (state_of self.old) bytes.now result }
    {
        match self.plan.next_call() {
            None => {
                self.bytes.extend_from_slice(bytes)?;
                Ok(())
            }
            Some(prefix) => {
                let part = prefix_of(bytes, prefix);
                self.bytes.extend_from_slice(part)?;
                self.faults = self.faults.saturating_add(1);
                Err(WriteAnswer::Failed)
            }
        }
    }
}
