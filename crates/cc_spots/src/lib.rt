//! What stands at the cuts of function bodies, and for which values an activation stands there.
//!
//! `specs/Spot.antt` says what is seen of a cut, and `cut_spot` finds it. `specs/Law.antt` says that there is an
//! activation at it for all values of the right types, and what it shows.
#![tactic(auto)]

mod law;
mod opcode;
mod place;
mod size;
mod spot;

pub use law::{activations_stand, callers_stand, cuts_are_told};
pub use spot::{CutSpot, cut_spot};
