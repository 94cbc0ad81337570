//! Several packs in one world, on one budget. Each tick and each reload runs one function of each program in order,
//! with the program's share of the budget.
#![tactic(auto)]

mod calling;
mod fault;
mod law;
mod making;
mod naming;
mod program;
mod programs;
mod sharing;

pub use fault::{MultiFault, ShareRefusal, SharedOther};
pub use law::{events_lead_on, programs_stand_as_alone};
pub use programs::Programs;
pub use sharing::share_of;
