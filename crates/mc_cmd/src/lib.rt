//! The command language: lines, their one spelling and their weight; and in `specs/` what a text says,
//! worlds and what commands leave of them, chains, packs and their play, and the public layout in
//! which a pack answers.
#![tactic(auto)]

mod fits;
mod foreign;
mod half;
mod law;
mod line;
mod macro_law;
mod pack;
mod pattern;
mod spelling;
mod word;

pub use foreign::is_foreign;
pub use half::{high_half, low_half};
pub use law::{
    appended_elements_are_last, filled_line_weighs_no_more, foreign_commands_leave_own_names_alone,
    line_has_one_text, line_runs_within_its_weight, print_says_the_line,
    removal_leaves_other_paths_alone, removal_of_the_last_leaves_elements_before,
    storages_are_apart, text_says_one_line, values_put_leave_other_paths_alone,
};
pub use line::{Cmd, CmdKind, Cmp, Line, Op, Range, Simple, Sub, Test};
pub use macro_law::{call_runs_the_filled_lines, macro_line_is_a_pattern, open_text_is_filled};
pub use pack::{AddFault, ExportType, Index, Pack};
pub use pattern::{Pattern, PatternPart};
pub use spelling::{command_weight, print, print_kind, weight};
pub use word::{
    cmp_word, cut, is_function, is_function_name, is_holder, is_id, is_namespace, is_objective,
    is_pack_namespace, op_word, read_number, strip_back, strip_front,
};

/// The least budget of a tick, and the quota of a call.
pub const BMIN: u32 = 512;

/// The greatest weight of a piece.
pub const PIECE: u32 = 464;

/// The quota with which a pack is loaded, and the rule of a new world.
pub const LOAD_QUOTA: u32 = 65_536;
