//! Lines from text, and the text that a macro line gives for a tree.
#![tactic(auto)]

mod commands;
mod execute;
mod fault;
mod filling;
mod front;
mod path;
mod pattern;
mod reading;
mod words;

pub use fault::ParseFault;
pub use filling::{Filled, fill};
pub use reading::parse;
