//! The player of scripts over several programs: the lines of a script over the packs of one world, and what they print.
#![tactic(auto)]

mod playing;

pub use playing::play_together;
