use crate::TrapKind;
use mc_nbt::Value;

/// What a running pack answers.
#[derive(Clone, Copy, Debug, PartialEq, Eq)]
pub enum Answer {
    /// No call has begun.
    New,
    /// Instantiation or a call is under way.
    Running,
    /// The last call is done, and gave this.
    Done(Option<Value>),
    /// The last call trapped.
    Trap(TrapKind),
    /// The start function trapped, and nothing can be called.
    Dead(TrapKind),
}
