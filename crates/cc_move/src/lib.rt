//! The moves of the machine along the ways between the places of a body.
#![tactic(auto)]

mod law;

pub use law::{
    callers_resume_with_results, calls_come_to_bodies, calls_open_functions, moves_follow_ways,
    standings_show_places,
};
