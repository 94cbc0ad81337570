//! What a program that runs shows to one who looks at it: its frames, the next instruction, and how much is left.
//!
//! `specs/View.antt` says it of a configuration of the reduction, as one walk over its term. `specs/Seen.antt` says it
//! of a configuration of the machine of `wm_flat`, whose activations are at hand. The law is that they are the same.
#![tactic(auto)]

mod law;
mod view;

pub use law::views_agree;
pub use view::{FrameView, FrameViews, Inspection, Values};
