//! What a program reads and writes: files by their paths, and sinks that take bytes.
//!
//! [`Files`] and [`Sink`] say what each call does, in terms of what the device holds and of counts
//! of its faults. [`DiskFiles`] and [`StdSink`] stand over the real system, and tell nothing of what
//! it holds. [`MemFiles`] and [`MemSink`] hold all in memory and tell it, and fail at the calls that
//! a [`Fails`] plans.
#![tactic(auto)]

mod answers;
mod disk_files;
mod fails;
mod faults;
mod files;
mod listing;
mod mem_files;
mod mem_sink;
mod plan;
mod sink;
mod std_sink;
mod stream;

pub use answers::{NamesAnswer, ReadAnswer, WriteAnswer};
pub use disk_files::{DiskFiles, MAX_NAMES};
pub use fails::{Fail, Fails};
pub use files::Files;
pub use mem_files::MemFiles;
pub use mem_sink::MemSink;
pub use sink::Sink;
pub use std_sink::StdSink;
