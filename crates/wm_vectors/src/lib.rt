//! The law that no vector of a module, inner ones too, has more items than there are bytes that spell the module. There
//! is no code that runs.
#![tactic(auto)]

mod law;

pub use law::vectors_are_short;
