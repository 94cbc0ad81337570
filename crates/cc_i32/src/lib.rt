//! The number operations of i32 but the bitwise ones, as lines that a pack runs.
#![tactic(auto)]

mod division;
mod helper_law;
mod law;
mod light;
mod operation;

pub use helper_law::helpers_are_named;
pub use law::{items_are_short, operations_fit, operations_perform, operations_weigh_at_most};
pub use operation::emit;
