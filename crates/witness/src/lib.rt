//! That what the theorem asks for can be met: a module, lists of events, and laws of what becomes of each pack of the
//! module under these.
#![tactic(auto)]

mod law;
mod pack_law;

pub use law::{example_is_a_program, exports_are_called_lawfully};
pub use pack_law::{packs_of_the_example_are_held, packs_of_the_example_are_played};
