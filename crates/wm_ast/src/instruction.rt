use crate::{Items, LoadOp, NumOp, StoreOp, ValType};
use mc_nbt::Value;

/// A list of instructions.
pub type Instrs = Items<Instr>;

/// A list of indices.
pub type U32s = Items<u32>;

/// An instruction. Each variant is named after its instruction, as `CallIndirect` after `call_indirect`;
/// `DropOne` is `drop`.
///
/// A label counts the blocks round the instruction from inside, so 0 is the innermost. Indices count from 0.
/// Contracts speak of an instruction by `op_of`, and of a list of them by `code_of`: plain data in `specs/`
/// that hold the same.
#[derive(Clone, Debug, Drop, PartialEq)]
pub enum Instr {
    Unreachable,
    Nop,
    Block {
        ty: Option<ValType>,
        body: Items<Instr>,
    },
    Loop {
        ty: Option<ValType>,
        body: Items<Instr>,
    },
    /// A missing `else` is an empty arm.
    If {
        ty: Option<ValType>,
        yes: Items<Instr>,
        no: Items<Instr>,
    },
    Br(u32),
    BrIf(u32),
    /// `last` is the default label.
    BrTable {
        labels: Items<u32>,
        last: u32,
    },
    Return,
    Call(u32),
    /// A call through the table, of a function of this type.
    CallIndirect(u32),
    DropOne,
    Select,
    LocalGet(u32),
    LocalSet(u32),
    LocalTee(u32),
    GlobalGet(u32),
    GlobalSet(u32),
    /// `align` is an exponent of 2, and `offset` counts bytes.
    Load {
        op: LoadOp,
        align: u32,
        offset: u32,
    },
    /// `align` is an exponent of 2, and `offset` counts bytes.
    Store {
        op: StoreOp,
        align: u32,
        offset: u32,
    },
    MemorySize,
    MemoryGrow,
    MemoryCopy,
    MemoryFill,
    Const(Value),
    Num(NumOp),
    /// An instruction on floats, by its opcode alone.
    Float(u8),
    /// `i64.mul`.
    Mul64,
}
