//! The words of the command line, scripts from text, and the arguments of calls; and in `specs/` the report of a
//! script: what it prints over the play of a pack, or of several packs in one world, line by line, and how it ends.
#![tactic(auto)]

mod act;
mod budget;
mod calling;
mod command_line;
mod law;
mod named_files;
mod number;
mod reading;

pub use act::{Act, ByteCount, ForeignCmd, ScriptLine, SharedAct, SharedLine};
pub use budget::Budget;
pub use calling::{arguments, export_named};
pub use command_line::{Job, WordsFault, words};
pub use law::{
    script_lines_are_read_as_spelled, shared_lines_are_read_as_spelled,
    where_lines_are_read_as_spelled,
};
pub use named_files::{NamedFile, NamedFiles};
pub use number::read_u32;
pub use reading::{ScriptFault, script, script_multi, script_where};
