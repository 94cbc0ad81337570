//! What the printed lines of a script tell of a module, over a pack that agrees with it.
#![tactic(auto)]

mod law;

pub use law::{lines_tell_answers_apart, lines_tell_the_reduction};
