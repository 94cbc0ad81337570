//! The division of i64 in pieces.
#![tactic(auto)]

mod beginning;
mod ending;
mod helper_law;
mod law;
mod line;
mod small;
mod turn;

pub use beginning::begin;
pub use ending::end;
pub use helper_law::helpers_are_named;
pub use law::{
    divisions_begin, divisions_end, divisions_fit, divisions_go_on, divisions_stay,
    divisions_weigh_at_most, items_are_short,
};
pub use turn::turns;
