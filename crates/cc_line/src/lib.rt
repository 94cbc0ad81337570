//! Lines of code that a pack runs, as data: steps and items with what they do, their weight and their texts.
#![tactic(auto)]

mod block;
mod build;
mod command;
mod helper;
mod helper_law;
mod item;
mod law;
mod leaf;
mod macro_line;
mod name;
mod number;
mod on_places;
mod open_step;
mod place;
mod printing;
mod said;
mod site;
mod spot;
mod step;
mod table;
mod tree;
mod under;
mod weight;
mod word;

pub use block::{Block, Emitted, Function, Functions, Kinds, Piece, PieceSet, Pieces, Slots};
pub use build::{push_item, push_steps};
pub use command::{command_of, command_of_item};
pub use helper_law::helpers_once_are_all;
pub use item::Item;
pub use law::{
    blocks_make_places, cores_fit_on_places, cores_run_on_any_places, cores_run_on_any_spots,
    items_weigh_at_most, lines_are_renamed, lines_do_what_items_do, lines_of_items_are_tidy,
    running_packs_keep_their_job, running_packs_show_states, steps_are_items,
};
pub use leaf::{Leaf, PieceId};
pub use macro_line::print_open_step;
pub use name::Name;
pub use number::{int_of, next_place, sum};
pub use on_places::{Spots, bring, bring_back, core_on, fetch, on_one, on_two, spot_of, work_spot};
pub use open_step::{OpenAct, OpenStep};
pub use place::{SCORE_PLACES, is_score};
pub use printing::{print_item, print_items, print_open_steps, print_step, print_steps};
pub use site::{Below, Key, OpenBelow, OpenPart, OpenSite, Part, Site, Store};
pub use spot::{Scratch, Spot, Stem};
pub use step::{Act, Check, Cond, Conds, Step};
pub use table::{Table, table_nbt, table_number};
pub use tree::{leaf_nbt, piece_nbt, zeros_nbt};
pub use weight::weight_of;
