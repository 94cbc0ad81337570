//! The scheduler of a pack: its functions' lines, the charge of a piece, turns and ticks.
#![tactic(auto)]

mod charging;
mod command;
mod emission;
mod law;

pub use charging::charged;
pub use emission::{TURN_WEIGHT, emit, end_rounds};
pub use law::{
    budgets_are_enough, calls_begin_a_job, charges_change_little, charges_cover_what_is_run,
    items_are_short, lines_of_the_scheduler_are_tidy, loading_begins_instantiation,
    packs_with_its_functions_have_the_scheduler, pieces_run_their_items,
    reloads_and_foreign_commands_change_nothing, ticks_are_rounds, turns_run_a_piece,
};
