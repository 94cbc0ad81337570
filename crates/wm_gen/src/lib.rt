//! The workload: a valid module that a number and a size tell, for measuring a compiler.
//!
//! `generate` gives its bytes. `specs/Workload.antt` says which module it is, and `specs/Shortest.antt` how it is
//! spelled.
#![tactic(auto)]

mod draws;
mod form;
mod generating;
mod instruction;
mod law;
mod number;

pub use generating::{MAX_SIZE, generate};
pub use law::{numbers_are_shortest, workload_is_typed};
