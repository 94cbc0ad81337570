//! Names of pieces and frames below, read from the trees in which a running pack keeps them.
//!
//! Whoever looks at a world has trees. Each decoder answers none exactly where nothing has such a tree, and else what
//! has it. So that no more is taken for a name or a frame than is one, what is read is made a tree again, as a pack
//! makes it, and compared.
#![tactic(auto)]

mod build;
mod entry;
mod lookup;
mod name;

pub use entry::{Entry, entries_of};
pub use name::piece_of;
