//! The operations on bits of i32 as lines of code that a pack runs: their items on places, whatever stands there.
#![tactic(auto)]

mod counting;
mod digit;
mod emitting;
mod helper_law;
mod law;
mod line;
mod shifting;
mod weight;

pub use emitting::emit;
pub use helper_law::helpers_are_named;
pub use law::{items_are_short, operations_are_light, operations_fit, operations_perform};
pub use line::{
    choice_site, clears, finds, joined, keeps, lays, loads, looks, makes, makes_in, sets, still,
    tells, where_in,
};
pub use shifting::half;
pub use weight::most_weight;
