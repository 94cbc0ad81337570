//! What items owe to the files and functions of a pack: that under every namespace the files of their lines can be kept, and
//! the names of the helpers that they call.
//!
//! The functions here do nothing: each is a law, which its contract states.
#![tactic(auto)]

mod law;
mod naming_law;

pub use law::short_items_are_kept_in_files;
pub use naming_law::named_helpers_are_few;
