//! Places of function bodies, and the kinds of the operands at them.
//!
//! `specs/Place.antt` says what the places of a body are, and which paths of positions tell them, `specs/Spot.antt` what
//! stands at each of them, and `specs/Kinds.antt` which operands. `walk` tells a `Visitor` of the places of a function
//! that are reached.
#![tactic(auto)]

mod law;
mod walking;

pub use law::{
    kinds_are_few, kinds_are_of_the_typing, kinds_lead_on, paths_tell_places, places_are_listed,
    places_lead_on, spots_are_typed,
};
pub use walking::{Level, Stop, Visitor, walk};
