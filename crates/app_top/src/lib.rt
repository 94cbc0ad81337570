//! The whole program over files and sinks that are handed in: from the words of the command line to
//! the files that are written and the lines that are printed.
#![tactic(auto)]

mod inputs;
mod inspecting;
mod joining;
mod linking;
mod program;
mod refusal;
mod sharing;
mod workload;

pub use program::top;
pub use refusal::Status;
