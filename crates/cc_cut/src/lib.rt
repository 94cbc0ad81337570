//! Where the bodies of functions are cut into pieces.
//!
//! `specs/Piece.antt` says at which places a body is cut, `specs/Cost.antt` which costs ask for a cut, `specs/Way.antt`
//! where control goes from a place, and `specs/Cuts.antt` what the cuts of a module are. `cut_module` gives them. An
//! emitter that walks a body asks `is_cut` of each place, and finds the cut at a path by `CutIndices`.
#![tactic(auto)]

mod begin;
mod cost;
mod exit;
mod index;
mod law;
mod making;
mod size;
mod table;

pub use begin::{is_cut, labelled, place_cost};
pub use exit::block_path;
pub use index::CutIndices;
pub use law::{
    cuts_have_rules, frames_have_room, indices_tell_cuts, layouts_are_kinds, pieces_are_light,
    pieces_lead_to_their_exits, ranks_rise,
};
pub use making::cut_module;
pub use size::{width, widths};
pub use table::{Cut, Cuts};
