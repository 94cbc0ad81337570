//! The base types that every crate shares: text, bytes, lists of texts, the kinds of WebAssembly's
//! integers and their values, and the answer that there is no memory; and the trees of command storages.
//!
//! Contracts see a `Text` and a `Bytes` as the list of its bytes and a `Texts` as a list of such
//! lists. They see an `Nbt` as the tree that `view` gives: trees, what paths select in them and what `set`,
//! `append` and `remove` leave are plain mathematics in `specs/`. `print` gives a tree's one spelling, and
//! `read` goes back.
#![tactic(auto)]

mod build;
mod byte;
mod bytes;
mod copy;
mod depth;
mod digits;
mod edit;
mod fault;
mod key;
mod kind;
mod law;
mod lookup;
mod memory;
mod path;
mod printing;
mod reading;
mod same;
mod scan;
mod shape;
mod text;
mod texts;
mod tree;
mod value;

pub use bytes::Bytes;
pub use edit::{Changed, append, remove, set};
pub use fault::SnbtFault;
pub use key::is_key;
pub use law::{
    append_leaves_elements_alone, append_leaves_others_alone, appended_is_last,
    change_below_is_change_there, changes_leave_trees, reader_answers_rightly,
    remove_leaves_others_alone, removed_element_is_left_out, removed_key_is_gone, set_is_selected,
    set_is_so_deep, set_leaves_others_alone, set_of_what_is_there, text_spells_one_tree,
    what_is_put_back_stands_there,
};
pub use lookup::{Sel, get};
pub use memory::Memory;
pub use path::{Path, PathPart};
pub use printing::print;
pub use reading::read;
pub use same::is_same;
pub use shape::is_tree;
pub use text::Text;
pub use texts::Texts;
pub use tree::{Nbt, NbtList, NbtMap};
pub use value::{Kind, Value};
