//! The reduction of WebAssembly in code, step by step.
#![tactic(auto)]

mod calls;
mod function;
mod instance;
mod invocation;
mod memory;
mod reduction;
mod simple;
mod stack;
mod step;
mod task;

pub use reduction::Reduction;
pub use task::{CallFault, Moved, Phase};
