//! Where a program is, for who looks at a world in which its pack runs.
//!
//! `inspect` reads what the pack keeps, and finds the configuration of the program for which the world stands, also in
//! the middle of an instruction (`StandsFor` in `pk_agree`). What it shows is what every such configuration does.
#![tactic(auto)]

mod beginnings;
mod calls;
mod cuts;
mod divisions;
mod fault;
mod frames;
mod growing;
mod inspecting;
mod law;
mod look;
mod outside;
mod placers;
mod placing;
mod reading;

pub use fault::InspectFault;
pub use inspecting::inspect;
pub use law::views_are_one;
