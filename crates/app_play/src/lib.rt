//! The player of scripts: the lines of a script over a pack, and what they print.
#![tactic(auto)]

mod fault;
mod locator;
mod playing;

pub use fault::{Cause, PlayFault};
pub use locator::Locator;
pub use playing::{leave_out, play, play_with, prepared, printed, refused, say, tell_counts};
