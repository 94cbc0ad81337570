//! Tidy lines: those that name nothing outside the namespace of a pack, whatever numbers fill their placeholders, and
//! have no quotation mark.
#![tactic(auto)]

mod command;
mod line;

pub use line::{first_untidy, tidy};
