//! What is emitted for operations, and where their operands and results stand.

use cc_line::{Block, Slots};
use mc_nbt::{Kind, Memory};
use std::alloc::Global;
use wm_ast::{BinaryOp, NumOp, Operator, UnaryOp};

/// What is emitted for an operation.
#[derive(Drop)]
pub struct Code {
    /// The block that is run first.
    pub first: Block,
    /// Those that are run behind it, in a division of i64.
    pub rest: Option<Rest>,
}

/// The blocks behind the beginning of a division.
#[derive(Drop)]
pub struct Rest {
    /// Turns, which are run as often as the beginning tells.
    pub turns: Block,
    /// The end, which puts the result into its places.
    pub end: Block,
}

/// Whether an operand or the result is an i64. Then the operands stand one behind the other, two places for an i64, and the
/// result comes to the place of the first one.
pub fn is_of_pairs(op: NumOp) -> bool {
    match op.operator() {
        Operator::Test(kind)
        | Operator::Unary(kind, _)
        | Operator::Binary(kind, _)
        | Operator::Comparison(kind, _) => kind == Kind::I64,
        Operator::Wrap | Operator::ExtendS | Operator::ExtendU => true,
    }
}

/// The type of what an operation gives.
pub fn result_kind(op: NumOp) -> Kind {
    match op.operator() {
        Operator::Test(_) | Operator::Comparison(_, _) | Operator::Wrap => Kind::I32,
        Operator::Unary(kind, _) | Operator::Binary(kind, _) => kind,
        Operator::ExtendS | Operator::ExtendU => Kind::I64,
    }
}

/// Whether it looks bytes up in tables that stand.
pub fn looks_bytes_up(op: NumOp) -> bool {
    match op.operator() {
        Operator::Binary(_, BinaryOp::And | BinaryOp::Or | BinaryOp::Xor) => true,
        _ => false,
    }
}

/// What is emitted for an operation, with its operands and its result in these places; none where nothing is.
///
/// # Errors
///
/// `Memory` where there is no room for it.
pub fn emit(alloc: Global, op: NumOp, slots: Slots) -> Result<Option<Code>, Memory> {
    if is_of_pairs(op) {
        pair_code(alloc, op, slots.a)
    } else {
        Ok(word_block(alloc, op, slots)?.map(whole))
    }
}

fn whole(first: Block) -> Code {
    Code { first, rest: None }
}

// Of an operation on i32.
fn word_block(alloc: Global, op: NumOp, slots: Slots) -> Result<Option<Block>, Memory> {
    match op.operator() {
        Operator::Test(Kind::I32)
        | Operator::Comparison(Kind::I32, _)
        | Operator::Binary(
            Kind::I32,
            BinaryOp::Add
            | BinaryOp::Sub
            | BinaryOp::Mul
            | BinaryOp::DivS
            | BinaryOp::DivU
            | BinaryOp::RemS
            | BinaryOp::RemU,
        ) => Ok(Some(cc_i32::emit(alloc, op, slots)?.block)),
        Operator::Binary(Kind::I32, _)
        | Operator::Unary(
            Kind::I32,
            UnaryOp::Clz | UnaryOp::Ctz | UnaryOp::Popcnt | UnaryOp::Extend8S | UnaryOp::Extend16S,
        ) => Ok(Some(cc_bits::emit(alloc, op, slots)?.block)),
        _ => Ok(None),
    }
}

// Of an operation with an i64.
fn pair_code(alloc: Global, op: NumOp, place: u32) -> Result<Option<Code>, Memory> {
    match op.operator() {
        Operator::Test(Kind::I64)
        | Operator::Comparison(Kind::I64, _)
        | Operator::Binary(Kind::I64, BinaryOp::Add | BinaryOp::Sub)
        | Operator::Unary(Kind::I64, UnaryOp::Extend8S | UnaryOp::Extend16S | UnaryOp::Extend32S)
        | Operator::Wrap
        | Operator::ExtendS
        | Operator::ExtendU => Ok(Some(whole(cc_i64::emit(alloc, op, place)?))),
        Operator::Unary(Kind::I64, UnaryOp::Clz | UnaryOp::Ctz | UnaryOp::Popcnt)
        | Operator::Binary(
            Kind::I64,
            BinaryOp::And
            | BinaryOp::Or
            | BinaryOp::Xor
            | BinaryOp::Shl
            | BinaryOp::ShrS
            | BinaryOp::ShrU
            | BinaryOp::Rotl
            | BinaryOp::Rotr,
        ) => Ok(Some(whole(cc_bits64::emit(alloc, op, place)?))),
        Operator::Binary(Kind::I64, operator) => division_code(alloc, operator, place),
        _ => Ok(None),
    }
}

// Of a division of i64.
fn division_code(alloc: Global, operator: BinaryOp, place: u32) -> Result<Option<Code>, Memory> {
    match operator {
        BinaryOp::DivS | BinaryOp::DivU | BinaryOp::RemS | BinaryOp::RemU => {
            let rest = Rest {
                turns: cc_div64::turns(alloc)?,
                end: cc_div64::end(alloc, operator, place)?,
            };
            Ok(Some(Code {
                first: cc_div64::begin(alloc, operator, place)?,
                rest: Some(rest),
            }))
        }
        _ => Ok(None),
    }
}
