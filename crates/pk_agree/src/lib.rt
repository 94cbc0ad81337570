//! When a pack agrees with a module.
#![tactic(auto)]

mod law;

pub use law::{
    linked_packs_agree, linked_packs_agree_stepwise, linked_packs_are_resumable,
    only_one_job_stands,
};
