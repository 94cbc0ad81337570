use mc_nbt::Text;
use wm_ast::{Items, Module};

/// A module that others may import from, with the name by which they do.
#[derive(Debug, Drop)]
pub struct Library {
    /// By which other modules import from it.
    pub name: Text,
    /// The module.
    pub module: Module,
}

/// A list of libraries.
pub type Libraries = Items<Library>;

/// An item that a module defines.
#[derive(Clone, Copy, Debug, PartialEq, Eq)]
pub struct Binding {
    /// The number of the module that defines it.
    pub module: u32,
    /// Its place among the module's own items of its kind.
    pub index: u32,
}

/// For each module, in order, what each of its imports is bound to.
pub type Bindings = Items<Items<Binding>>;
