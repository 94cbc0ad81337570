//! Items without the stops at a trap behind which nobody sees what is done.
#![tactic(auto)]

mod harmless;
mod law;
mod stops;
mod walk;

pub use law::{
    fewer_stops_change_nothing_seen, fewer_stops_keep_their_form, fewer_stops_weigh_less,
};
pub use stops::is_trap_stop;
pub use walk::without_stops;
