//! Linked modules as one module, and what linked modules mean.
//!
//! `joined` of `specs/Joined.antt` is the joined module. `specs/Agree.antt` says what it is that it does as the linked
//! modules do.
#![tactic(auto)]

mod adding;
mod counts;
mod joining;
mod law;
mod numbers;
mod parts;
mod place;
mod placing;
mod renumber;

pub use joining::join;
pub use law::linked_steps_agree;
