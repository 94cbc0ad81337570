//! Valid modules.
//!
//! `validate` takes a module of the profile (`InProfile` of `wm_ast`) and gives a `Typed`, where the module is valid
//! and no function is too high. `Valid` of `specs/Valid.antt` and `TypesCode` of `specs/Typing.antt` say which modules
//! are valid, as chapter 3 of the WebAssembly Core Specification, edition 1.0, does. `specs/Height.antt` says what the
//! height of a function is, and `specs/Place.antt` which operands stand at a place.
#![tactic(auto)]

mod body;
mod fault;
mod height;
mod item_check;
mod operands;
mod place;
mod rule;
mod scope;
mod signature;
mod typed;
mod valid_fault;
mod validation;

pub use height::MAX_HEIGHT;
pub use rule::{Change, change_of};
pub use scope::{Scope, scope_of};
pub use typed::Typed;
pub use valid_fault::ValidFault;
pub use validation::validate;
