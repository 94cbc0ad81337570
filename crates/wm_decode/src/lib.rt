//! Modules from their bytes.
//!
//! `decode` gives the module that bytes spell, and refuses all others with the first cause. The grammar is
//! `Spells` of `wm_ast`: chapter 5 of the WebAssembly Core Specification 1.0, with some instructions of edition 2.0.
//! Reading goes over slices: each part is read at the front of the bytes, and what is left comes back with it.
#![tactic(auto)]

mod decoding;
mod fault;
mod instructions;
mod opcode;
mod operand;
mod part;
mod plain;
mod section;
mod segment;
mod types;

pub use decoding::{DecodeFault, decode, decode_has_one_answer, one_module};
