//! The lines that a script prints of a world, those that tell where a program is, and those that tell what the pieces of
//! a pack weigh.
//!
//! Contracts give each text of a script as the definition of the report in `app_words` has it, for the world that a
//! `World` is seen as.
#![tactic(auto)]

mod cost_lines;
mod dumping;
mod lines;
mod pages;
mod pieces;
mod printing;
mod tally;
mod values;
mod weighing;
mod where_lines;

pub use cost_lines::costs;
pub use lines::{busy, last_line};
pub use printing::{dump, globals, memory, show};
pub use where_lines::{none, start, where_text};
