//! The number operations of WebAssembly on values: section 4.4.1 of the WebAssembly Core Specification 1.0, with the
//! sign extensions of edition 2.0.
//!
//! `apply` of `wm_ast`'s `specs/Apply.antt` says what each gives, by whole numbers modulo 2^32 and 2^64.
#![tactic(auto)]

mod int32;
mod int64;
mod operation;

pub use operation::{apply1, apply2};
pub use wm_ast::{Answer, TrapKind};
