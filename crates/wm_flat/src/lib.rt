//! A machine that does the same as the reduction of WebAssembly, with no nested terms.
//!
//! `step` of `wm_ast` (`specs/Step.antt`) rewrites a term in which labels and frames are nested. The machine of
//! `specs/Flat.antt` has a list of activations instead, each with the blocks that it is in and the operands of each. Its
//! move is computed, and each move is so many steps of the reduction.
//!
//! `specs/FlatTyping.antt` says which configurations have a typing. Those of a valid module of the profile have one, and
//! so they have a move.
#![tactic(auto)]

mod law;
mod typing_law;

pub use law::{
    beginnings_agree, branches_keep_operands, each_count_is_reached, moves_agree, outcome_is_one,
    runs_agree,
};
pub use typing_law::{
    moves_keep_types, programs_are_sound, programs_are_typed, spelled_numbers_are_in_range,
};
