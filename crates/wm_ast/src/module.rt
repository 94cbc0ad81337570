use crate::{Instrs, Items, U32s};
use mc_nbt::{Bytes, Text};

/// The greatest number of blocks that may stand round one place of an expression.
pub const MAX_DEPTH: u32 = 1024;

/// The type of a value.
#[derive(Clone, Copy, Debug, PartialEq, Eq)]
pub enum ValType {
    I32,
    I64,
    F32,
    F64,
}

/// A list of types of values.
pub type ValTypes = Items<ValType>;

/// The type of a function.
#[derive(Clone, Debug, Drop, PartialEq)]
pub struct FuncType {
    pub params: ValTypes,
    pub results: ValTypes,
}

/// A list of types of functions.
pub type FuncTypes = Items<FuncType>;

/// The least size and, where there is one, the greatest: entries of a table, or pages of a memory.
#[derive(Clone, Copy, Debug, PartialEq, Eq)]
pub struct Limits {
    pub min: u32,
    pub max: Option<u32>,
}

/// A list of limits.
pub type LimitsList = Items<Limits>;

/// So many locals of one type.
#[derive(Clone, Copy, Debug, PartialEq, Eq)]
pub struct Run {
    pub count: u32,
    pub ty: ValType,
}

/// A list of runs of locals.
pub type Runs = Items<Run>;

/// A function: the index of its type, its locals without its parameters, and its body.
#[derive(Clone, Debug, Drop, PartialEq)]
pub struct Func {
    pub kind: u32,
    pub locals: Runs,
    pub body: Instrs,
}

/// A list of functions.
pub type Funcs = Items<Func>;

/// A global with the expression of its first value.
#[derive(Clone, Debug, Drop, PartialEq)]
pub struct Global {
    pub ty: ValType,
    pub mutable: bool,
    pub init: Instrs,
}

/// A list of globals.
pub type Globals = Items<Global>;

/// What an index of an export counts.
#[derive(Clone, Copy, Debug, PartialEq, Eq)]
pub enum Space {
    Func,
    Table,
    Memory,
    Global,
}

/// An export: its name, and what it names.
#[derive(Clone, Debug, Drop, PartialEq)]
pub struct Export {
    pub name: Text,
    pub space: Space,
    pub index: u32,
}

/// A list of exports.
pub type Exports = Items<Export>;

/// What is imported: a function of the type of this index, a table, a memory or a global.
#[derive(Clone, Copy, Debug, PartialEq, Eq)]
pub enum Imported {
    Func(u32),
    Table(Limits),
    Memory(Limits),
    Global { ty: ValType, mutable: bool },
}

/// An import: the names of the other module and of its export, and what it is to be.
#[derive(Clone, Debug, Drop, PartialEq)]
pub struct Import {
    pub module: Text,
    pub name: Text,
    pub what: Imported,
}

/// A list of imports.
pub type Imports = Items<Import>;

/// Functions that are put into a table at the value of `offset`.
#[derive(Clone, Debug, Drop, PartialEq)]
pub struct Elem {
    pub table: u32,
    pub offset: Instrs,
    pub funcs: U32s,
}

/// A list of element segments.
pub type Elems = Items<Elem>;

/// Bytes that are put into a memory at the value of `offset`.
#[derive(Clone, Debug, Drop, PartialEq)]
pub struct Data {
    pub memory: u32,
    pub offset: Instrs,
    pub bytes: Bytes,
}

/// A list of data segments.
pub type Datas = Items<Data>;

/// A module, whether it is valid or not. What it lacks is empty.
#[derive(Clone, Debug, Drop, PartialEq)]
pub struct Module {
    pub types: FuncTypes,
    /// The functions of its own. Those that it imports stand before them in the space of functions, and so
    /// with tables, memories and globals.
    pub funcs: Funcs,
    pub tables: LimitsList,
    pub mems: LimitsList,
    pub globals: Globals,
    pub exports: Exports,
    /// The index of the start function.
    pub start: Option<u32>,
    pub elems: Elems,
    pub datas: Datas,
    pub imports: Imports,
}
