//! What a world shows of a running pack, read: the places of the innermost frame, the scores that are no places, what
//! stands under the keys, and whether the pack runs as its states say.
//!
//! A state of a pack (`cc_line`) is what the lines of a pack speak of. Here one goes the other way: who finds a world
//! asks whether it shows such a state, and what all that it shows have in common.
#![tactic(auto)]

mod frame;
mod frame_list;
mod ints;
mod law;
mod pack_names;
mod reading;
mod running;
mod tables;

pub use frame::places;
pub use ints::ints_in;
pub use law::states_agree;
pub use pack_names::PackNames;
pub use reading::{score, tree};
pub use running::runs;
