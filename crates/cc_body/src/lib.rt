//! The bodies of functions as pieces: what is emitted for each place.
//!
//! `specs/Emit.antt` says which items are emitted for each place, and `specs/Parts.antt` which pieces a module has.
//! `compile` gives them.
#![tactic(auto)]

mod act;
mod body;
mod branch;
mod branch_table;
mod calling;
mod compiling;
mod condition;
mod dividing;
mod emission;
mod frame;
mod global;
mod growing;
mod heights;
mod known_constants;
mod labels;
mod law;
mod lean_body;
mod memory;
mod number;
mod part_builder;
mod piece_builder;
mod repeating;
mod restoring;
mod width;

pub use compiling::{compile, helpers_of};
pub use global::global_site;
pub use law::pieces_are_light;
