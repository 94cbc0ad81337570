//! Worlds of commands: objectives with their scores, storages with their trees, and the rule; what each command
//! changes in one, what it answers, and whether an `execute` goes on to the command that it runs.
//!
//! Contracts see a `World` as the world of functions that `seen` gives, and say what a command leaves by the
//! definitions of the command language.
#![tactic(auto)]

mod arithmetic;
mod count;
mod direct;
mod guesses;
mod index;
mod kept;
mod outcome;
mod range;
mod score_key;
mod score_name;
mod scoreboard;
mod tree_change;
mod world;

pub use direct::{is_direct, run_of};
pub use kept::KeptCmd;
pub use outcome::Outcome;
pub use world::World;
