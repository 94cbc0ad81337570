//! Calls and returns as acts: how frames are saved and restored, and how arguments and results are handed over.
#![tactic(auto)]

mod back;
mod call;
mod fetch;
mod frame;
mod job;
mod law;
mod path;

pub use back::{hand_results, push_hands, push_takes, restore_frame};
pub use call::{open_frame, pass_arguments, push_frame, test_depth};
pub use fetch::{fetch_arguments, make_frame, push_followed, push_follows};
pub use frame::{done_piece, opening_piece, push_next, push_zeros};
pub use job::{begin_frames, end_job};
pub use law::{
    arguments_are_fetched, arguments_are_passed, frames_are_limited, frames_are_saved,
    items_are_short, jobs_begin_and_end, results_are_handed,
};
