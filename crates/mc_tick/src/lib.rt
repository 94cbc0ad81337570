//! A pack that is played, event after event: it rests or it works, and each call is one event.
#![tactic(auto)]

mod arguments;
mod budget;
mod foreign;
mod loaded;
mod play;
mod refusal;
mod resting;
mod resumed;
mod working;

pub use arguments::{are_of_kinds, ints_of, set_args};
pub use budget::enough;
pub use foreign::{is_own, names_of};
pub use loaded::Loaded;
pub use play::Play;
pub use refusal::{OtherRefusal, StartRefusal};
pub use resting::Resting;
pub use resumed::Resumed;
pub use working::Working;
