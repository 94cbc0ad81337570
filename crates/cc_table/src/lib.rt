//! Numbers looked up in tables of the program: where a long `br_table` leads, and which function a `call_indirect` reaches.
#![tactic(auto)]

mod helper_law;
mod law;
mod looking;
mod table;
mod target;

pub use helper_law::helpers_are_named;
pub use law::{items_are_short, numbers_are_found, tables_are_lines, targets_are_found};
pub use looking::{find, look};
pub use table::first_table;
pub use target::call_target;
