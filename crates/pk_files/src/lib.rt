//! The folder of a pack: a pack is written into an empty folder, and read back from one.
//!
//! The definitions of `specs/` say which pack the files of a folder say, in the order in which they are read, and which
//! files stand after a pack was written. Both calls are told by them over any [`io_dev::Files`], whether or not its
//! content is told.
#![tactic(auto)]

mod encode;
mod fault;
mod forms;
mod get;
mod law;
mod lines;
mod paths;
mod put;

pub use fault::{GetFault, PutFault};
pub use get::read_pack;
pub use law::{
    folder_has_one_answer, index_says_itself, stopped_folder_holds_no_pack, worked_pack_is_held,
    written_folder_holds_the_pack,
};
pub use put::{put_pack, see_empty, write_pack};

/// The most bytes that a file of a pack may have.
pub const PACK_CAP: u64 = 16_777_216;
