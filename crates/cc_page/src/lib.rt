//! Memory as a pack keeps it: pages of words of four bytes. What the public layout shows of them are WebAssembly's bytes,
//! and reads and writes of bytes are reads and writes of one word or of two that follow one another.
//!
//! The functions here do nothing: each is a law, which its contract states.
#![tactic(auto)]

mod law;

pub use law::{
    bytes_are_parts_of_words, bytes_are_written_into_words, pages_have_bytes,
    pages_stand_in_storages, scores_split_words,
};
