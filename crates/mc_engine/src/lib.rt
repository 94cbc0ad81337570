//! The engine that runs chains of the lines of packs.
//!
//! `Engine::load` and `Engine::add` read each line of a pack once, and `Engine::chain` runs the chain that begins
//! with a function: what a chain leaves of the world, how much weight it uses and whether it is cut are those of the
//! command language, which is defined over texts.
#![tactic(auto)]

mod act;
mod body;
mod engine;
mod filling;
mod functions;
mod held;
mod line_cache;
mod pending;
mod run;

pub use engine::Engine;
pub use run::Chained;
