//! Instantiation: the pieces of a pack that lay down the first store of a module, and call its start function.
//!
//! `specs/Init.antt` says which pieces there are, and of which items; `init_parts` gives them. `specs/Laid.antt` says
//! what stands between them, and behind the last one.
#![tactic(auto)]

mod globals;
mod instantiation;
mod law;
mod pages;
mod parts;
mod standing;
mod start;
mod uses;

pub use law::instantiation_lays_down_the_first_store;
pub use parts::init_parts;
pub use uses::uses_bytes;
