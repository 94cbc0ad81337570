//! Loads and stores of all widths, made of those of i32, and that they do what WebAssembly's reduction does.
#![tactic(auto)]

mod helper_law;
mod knowing;
mod known_law;
mod law;
mod loading;
mod offset;
mod storing;

pub use helper_law::helpers_are_named;
pub use knowing::{load_by, store_by};
pub use known_law::{
    items_are_short, known_accesses_are_lines, known_loads_are_done, known_stores_are_done,
};
pub use law::{accesses_are_lines, loads_are_done, stores_are_done};
pub use loading::load;
pub use storing::store;
