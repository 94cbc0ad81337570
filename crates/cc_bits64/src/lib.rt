//! The operations on bits of i64 as lines of code that a pack runs: their items on places, two for each number.
#![tactic(auto)]

mod emitting;
mod halves;
mod helper_law;
mod law;
mod line;
mod shifting;

pub use emitting::emit;
pub use helper_law::helpers_are_named;
pub use law::{items_are_short, operations_are_light, operations_fit, operations_perform};
