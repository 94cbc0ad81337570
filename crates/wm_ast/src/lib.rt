//! WebAssembly modules, and their binary format.
//!
//! Contracts see a list of this crate, as `FuncTypes`, as the list of its items. They see instructions by
//! `code_of`: plain data that hold the same (`specs/Code.antt`, `specs/View.antt`). `Spells` of
//! `specs/Spelling.antt` says which bytes spell which module, as chapter 5 of the WebAssembly Core
//! Specification 1.0 does, with the sign extensions, `memory.copy` and `memory.fill` of edition 2.0 besides. Numbers of
//! sections are those of edition 1.0 where no other is named. `InProfile` of `specs/Profile.antt` says which modules
//! this compiler takes. `apply` of `specs/Apply.antt` says what the operations on numbers give, as section 4.3.2 does,
//! and `specs/Storage.antt` what loads and stores make of bytes. `step` of `specs/Step.antt` and `after` of
//! `specs/After.antt` say what a program does, as chapter 4 does, from the configurations of `specs/Instance.antt` on.
#![tactic(auto)]

mod answer;
mod initial;
mod instruction;
mod item;
mod items;
mod limit;
mod module;
mod nesting;
mod operation;
mod operator;
mod types;

pub use answer::{Answer, TrapKind};
pub use initial::{constant_offset, constant_value, first_values};
pub use instruction::{Instr, Instrs, U32s};
pub use item::Item;
pub use items::Items;
pub use limit::{
    MAX_ALL_LOCALS, MAX_EXPORT_SIZE, MAX_EXPORTS, MAX_FRAMES, MAX_FUNCTIONS, MAX_GLOBALS,
    MAX_INSTRUCTIONS, MAX_LABELS, MAX_LOCALS, MAX_TABLE, MAX_TYPES, PAGES,
};
pub use module::{
    Data, Datas, Elem, Elems, Export, Exports, Func, FuncType, FuncTypes, Funcs, Global, Globals,
    Import, Imported, Imports, Limits, LimitsList, MAX_DEPTH, Module, Run, Runs, Space, ValType,
    ValTypes,
};
pub use nesting::depth;
pub use operation::{LoadOp, NumOp, StoreOp};
pub use operator::{BinaryOp, CompareOp, Operator, UnaryOp};
pub use types::are_same;
