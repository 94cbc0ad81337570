//! The laws of several packs in one world, on one budget: each answers as it does alone. There is no code that runs.
#![tactic(auto)]

mod law;
mod tidy_law;

pub use law::{each_pack_answers_as_alone, shares_sum_to_the_budget, tidy_packs_may_live_together};
pub use tidy_law::{chains_of_a_tidy_pack_keep_to_its_names, filled_tidy_lines_are_tidy};
