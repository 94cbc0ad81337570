//! Where the program of a module is, as a line of a script tells it, and that this is what the reduction gives.
#![tactic(auto)]

mod inspector;
mod law;

pub use inspector::Inspector;
pub use law::lines_tell_where;
