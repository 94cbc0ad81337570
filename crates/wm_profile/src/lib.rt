//! The profile's check: whether this compiler takes a module, and if it doesn't, why not.
//!
//! `check` decides `InProfile` of `wm_ast`, and tells the first cause, in an order that is fixed. It takes no memory.
#![tactic(auto)]

mod checking;
mod expression;
mod fault;
mod floats;
mod instructions;
mod limits;
mod products;
mod segments;

pub use checking::{check, profile_has_no_cause};
pub use fault::ProfileFault;
