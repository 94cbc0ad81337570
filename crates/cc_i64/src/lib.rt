//! The light operations on numbers of 64 bits, as lines that a pack runs: sums, differences, comparisons and conversions.
#![tactic(auto)]

mod helper_law;
mod law;
mod operation;
mod pairs;

pub use helper_law::helpers_are_named;
pub use law::{items_are_short, operations_fit, operations_perform, operations_weigh_at_most};
pub use operation::emit;
