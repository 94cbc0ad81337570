//! The passes over the items of a piece of a body, one behind the other: the items leave out stops behind which nothing
//! is seen, and names of next pieces that nobody reads, read places at their sources, leave out writes to places that
//! nobody reads, and make numbers where they go.
#![tactic(auto)]

mod bound;
mod law;
mod leaning;

pub use law::{lean_items_keep_their_form, lean_items_lead_alike, lean_items_weigh_no_more};
pub use leaning::lean;
