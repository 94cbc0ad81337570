//! The public layout of a running pack: the names and paths under which a pack answers, and what it answers in a world.
#![tactic(auto)]

mod answers;
mod layout_names;
mod names;
mod reading;
mod trap;
mod values;

pub use answers::Answer;
pub use layout_names::LayoutNames;
pub use names::{full_name, to_first, to_key};
pub use reading::{answer, state};
pub use trap::TrapKind;
pub use values::value_of;
