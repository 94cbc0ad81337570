//! Numbers and sections of a module's binary format.
//!
//! Numbers are LEB128, unsigned and signed, of at most so many bits. `frames` divides a module into its sections
//! and looks at nothing inside them. Contracts speak of the grammar of `wm_ast`: `IsUnsigned` and `IsSigned` say
//! which bytes spell which number, and `SpellsSection` which bytes are which section.
#![tactic(auto)]

mod fault;
mod number;
mod section;

pub use fault::FrameFault;
pub use number::{Cursor, read_s32, read_s64, read_u32, s32_at, s64_at, u32_at};
pub use section::{Frame, Frames, frames, frames_have_one_answer};
