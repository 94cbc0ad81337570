//! The memory of a running pack as a whole: the items by which it grows, and by which bytes of it are filled and copied, and that
//! they do what WebAssembly's reduction does.
#![tactic(auto)]

mod copying;
mod fill_law;
mod filling;
mod grow_law;
mod growing;
mod helper_law;
mod short_law;

pub use copying::copy_byte;
pub use fill_law::{copies_go_on, fills_are_lines, fills_go_on, reaches_are_tested};
pub use filling::{fill_byte, reach};
pub use grow_law::{grows_are_lines, grows_are_told, pages_are_appended};
pub use growing::{grow, grower};
pub use helper_law::helpers_are_named;
pub use short_law::items_are_short;
