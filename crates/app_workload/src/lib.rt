//! What is told of a workload: the play of its pack and the reduction of its module, each as far as is waited for.
#![tactic(auto)]

mod lines;
mod playing;
mod reducing;
mod texts;

pub use lines::workload_lines;
