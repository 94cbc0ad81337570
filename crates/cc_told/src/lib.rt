//! What a state of a running pack tells: for which activation it stands, and for which callers.
//!
//! `cc_simulate` says when a state stands for an activation over its callers, at a cut or on a way to one. The laws are
//! that a state stands for one alone, and which of these cases its piece leaves: whoever reads a state finds one answer.
#![tactic(auto)]

mod law;

pub use law::{callers_are_told, cases_are_named, one_standing};
