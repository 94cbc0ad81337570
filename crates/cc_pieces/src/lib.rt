//! Pieces that go on where a body's piece has ended: routines over frames, which know no body.
//!
//! With them calls begin and jobs end, arguments are fetched, frames restored, values put to their places, pages
//! appended, and divisions gone on with. `specs/Parts.antt` says which there are.
#![tactic(auto)]

mod dividing;
mod entry;
mod fetching;
mod growing;
mod items;
mod law;
mod part;
mod placing;
mod restoring;
mod shape;

pub use dividing::{answering_items, answering_piece, push_divided, turning_part};
pub use entry::{ARGS_OF_PIECE, entry_part, opening_items, push_dones, push_takers};
pub use fetching::{are_many, fetch_piece, push_fetching};
pub use growing::{push_append_next, push_grower};
pub use items::{push_act, push_acts, push_block, push_exit, push_steps, push_where};
pub use law::shared_pieces_are_light;
pub use part::{Part, Parts, part_of};
pub use placing::{placer_number, push_placers};
pub use restoring::{restore_piece, restoring_items};
pub use shape::{Shape, product};
