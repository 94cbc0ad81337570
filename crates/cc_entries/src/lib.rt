//! What the frames below and the names of pieces tell.
//!
//! A running pack keeps the frames of callers as one tree, and the name of a piece as another (`cc_line`, `cc_call`).
//! The law is that these trees tell the frames and the pieces: whoever reads a world finds one answer.
#![tactic(auto)]

mod law;

pub use law::entries_tell;
