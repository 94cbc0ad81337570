//! Items that run on: behind items that in any case name a cut of their own function as the next piece, the items of
//! that cut stand once more, so that no round of the scheduler lies between.
#![tactic(auto)]

mod copy;
mod guard;
mod law;
mod named;
mod running;
mod stops;
mod traps;
mod weight;

pub use copy::copy_of_items;
pub use law::{ends_are_named, items_run_on, items_run_over_cuts, run_on_items_stay_light};
pub use running::tailed;
