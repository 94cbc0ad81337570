//! Items that name the next piece only where its name is needed.
#![tactic(auto)]

mod law;
mod names;
mod same;
mod speaks;
mod walk;

pub use law::{
    fewer_names_change_nothing_seen, fewer_names_keep_their_form, fewer_names_weigh_less,
};
pub use speaks::is_next;
pub use walk::with_needed_names;
