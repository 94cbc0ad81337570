//! The number operations of i32 with a constant for one operand, as lines that a pack runs.
#![tactic(auto)]

mod compare;
mod divide;
mod emitting;
mod law;
mod line;
mod mask;
mod operation;
mod shift;

pub use emitting::emit;
pub use law::{
    items_are_short, no_helpers_are_called, operations_fit, operations_perform,
    operations_weigh_at_most,
};
