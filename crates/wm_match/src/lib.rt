//! Modules that are linked with one another: which import is which export.
//!
//! `Binds` of `specs/Binds.antt` says which bindings link modules, and `IsCause` of `specs/Cause.antt` why modules
//! aren't linked. `stands_for` of `specs/Space.antt` says what an index of a module stands for.
#![tactic(auto)]

mod binding;
mod closed;
mod directory;
mod fault;
mod law;
mod library;
mod lookup;
mod matching;
mod naming;
mod resolving;
mod sizes;
mod space;

pub use fault::{MatchFault, Single};
pub use law::{bindings_are_one, lists_are_short, resolve_has_one_answer};
pub use library::{Binding, Bindings, Libraries, Library};
pub use matching::module_of;
pub use resolving::resolve;
pub use space::{is_in, own_count};
