//! What the printed lines of a script tell of linked modules, over the pack of the joined one.
#![tactic(auto)]

mod law;

pub use law::{joined_jobs_are_linked, lines_tell_linked_modules, only_one_linked_job_stands};
