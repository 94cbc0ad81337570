//! That the pieces of bodies do what WebAssembly's machine does. There is no code here: laws, which the crates above
//! cite.
#![tactic(auto)]

mod law;

pub use law::{calls_enter_bodies, pieces_do_what_the_machine_does};
