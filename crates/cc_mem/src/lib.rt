//! Memory of a running pack: the items of loads and stores, and of the memory's size, and that they do what WebAssembly's
//! reduction does.
#![tactic(auto)]

mod address;
mod helper_law;
mod law;
mod line;
mod loading;
mod short_law;
mod sizing;
mod storing;
mod window;
mod word;

pub use address::{record_trap, stop};
pub use helper_law::helpers_are_named;
pub use law::{
    accesses_are_lines, addresses_are_found, loads_are_done, sizes_are_told, stores_are_done,
    window_accesses_weigh,
};
pub use line::{is_in, keeps, makes, scales};
pub use loading::load;
pub use short_law::items_are_short;
pub use sizing::{pages, size};
pub use storing::store;
