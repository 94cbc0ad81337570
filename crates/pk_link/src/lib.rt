//! Links a module into a pack.
//!
//! `link` takes a typed module and gives a pack, which agrees with the module over every schedule. `specs/Functions.antt` says
//! which functions it has.
#![tactic(auto)]

mod functions;
mod index;
mod linking;
mod naming;

pub use linking::link;
