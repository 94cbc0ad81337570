//! The frames of callers, from the entries in which a running pack keeps them.
//!
//! An entry has the places of a frame and the piece that restores it. Behind which call that piece begins, and which
//! values the places are, the module tells.
#![tactic(auto)]

mod caller;
mod types;
mod waiting;

pub use types::results_of;
pub use waiting::callers;
