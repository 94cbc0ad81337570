// What instructions add to a piece.
ghost use Rattle.std.specs.Prelude.{◌≡◌, ◌≤◌};
ghost use Rattle.wm_ast.specs.View.{op_of, code_of};
ghost use Rattle.cc_cut.specs.Cost.{binary_cost, code_cost, cost, ends_piece, goes_on_behind, is_repeated, load_cost, most_cost};
ghost use Rattle.cc_cut.specs.Cost.{operator_cost, places_of, store_cost, table_cost, unary_cost};

use mc_nbt::Kind;
use wm_ast::{BinaryOp, Instr, LoadOp, Operator, StoreOp, UnaryOp};

// No instruction costs more.
const MOST_COST: u32 = 326;

// A call of a function: the places in use are saved, and arguments passed, at most so many of both.
const CALL_COST: u32 = 302;

// A br_table of up to so many labels is a chain of tests.
const MOST_TESTED: usize = 17;

// A longer one looks its label up.
const LOOKUP_COST: u32 = 48;

// A constant: a write for each place.
const CONSTANT_COST: u32 = 2;

// An i64 has two places.
fn places_of(kind: Kind) -> u32
    ensures value { result ≡ places_of kind }
    ensures few { result ≤ 2 }
{
    match kind {
        Kind::I32 => 1,
        Kind::I64 => 2,
    }
}

fn unary_cost(op: UnaryOp) -> u32
    ensures value { result ≡ unary_cost op }
    ensures low { result ≤ 100 }
{
    match op {
        UnaryOp::Clz | UnaryOp::Ctz | UnaryOp::Popcnt => 40,
        UnaryOp::Extend8S | UnaryOp::Extend16S | UnaryOp::Extend32S => 12,
    }
}

fn binary_cost(op: BinaryOp) -> u32
    ensures value { result ≡ binary_cost op }
    ensures low { result ≤ 100 }
{
    match op {
        BinaryOp::Add | BinaryOp::Sub | BinaryOp::Mul => 12,
        BinaryOp::DivS | BinaryOp::DivU | BinaryOp::RemS | BinaryOp::RemU => 60,
        BinaryOp::And | BinaryOp::Or | BinaryOp::Xor => 100,
        BinaryOp::Shl | BinaryOp::ShrS | BinaryOp::ShrU | BinaryOp::Rotl | BinaryOp::Rotr => 40,
    }
}

fn operator_cost(operator: Operator) -> u32
    ensures { result ≡ operator_cost operator }
{
    match operator {
        Operator::Test(kind) => 12 * places_of(kind),
        Operator::Unary(kind, op) => unary_cost(op) * places_of(kind),
        Operator::Binary(kind, op) => binary_cost(op) * places_of(kind),
        Operator::Comparison(kind, _) => 16 * places_of(kind),
        Operator::Wrap | Operator::ExtendS | Operator::ExtendU => 12,
    }
}

// An access to memory of up to four bytes; one of eight is made of two.
const ACCESS_COST: u32 = 120;

fn load_cost(op: LoadOp) -> u32
    ensures { result ≡ load_cost op }
{
    match op {
        LoadOp::I64Load => 2 * ACCESS_COST,
        _ => ACCESS_COST,
    }
}

fn store_cost(op: StoreOp) -> u32
    ensures { result ≡ store_cost op }
{
    match op {
        StoreOp::I64Store => 2 * ACCESS_COST,
        _ => ACCESS_COST,
    }
}

// A test and a way out for each label, or a look-up.
fn table_cost(labels: usize) -> u32
    ensures { result ≡ table_cost labels }
{
    if labels <= MOST_TESTED {
        20 + 16 * labels as u32
    } else {
        LOOKUP_COST
    }
}

// What an instruction adds to a piece at most, with its ways out.
fn cost(instr: &Instr) -> u32
    ensures { result ≡ cost (op_of instr.now) }
{
    match instr {
        Instr::Nop | Instr::Block { .. } | Instr::DropOne => 0,
        Instr::Const(_) => CONSTANT_COST,
        Instr::Unreachable | Instr::Loop { .. } => 2,
        Instr::LocalGet(_) | Instr::LocalSet(_) | Instr::LocalTee(_) => 4,
        Instr::GlobalGet(_) | Instr::GlobalSet(_) => 8,
        Instr::If { .. } => 10,
        Instr::Br(_) | Instr::Return | Instr::MemorySize => 12,
        Instr::BrIf(_) => 20,
        Instr::BrTable { labels, .. } => table_cost(labels.len()),
        Instr::Select => 24,
        Instr::MemoryGrow => 60,
        Instr::Load { op, .. } => load_cost(*op),
        Instr::Store { op, .. } => store_cost(*op),
        Instr::Num(op) => operator_cost(op.operator()),
        Instr::Call(_) => CALL_COST,
        // A fill and a copy have a piece of their own, which is run again until their bytes are written.
        Instr::MemoryCopy | Instr::MemoryFill => MOST_COST,
        Instr::CallIndirect(_) | Instr::Float(_) | Instr::Mul64 => MOST_COST,
    }
}

/// What stands next in a sequence adds so much to a piece at most. The end of a sequence adds nothing.
pub(crate) fn code_cost(code: &[Instr]) -> u32
    ensures value { result ≡ code_cost (code_of code.now) }
    ensures low { result ≤ most_cost }
{
    match code.first() {
        Some(instr) => cost(instr),
        None => 0,
    }
}

// A routine of several pieces goes on in a piece behind it.
fn goes_on_behind(operator: Operator) -> bool
    ensures { result ≡ goes_on_behind operator }
{
    match operator {
        Operator::Binary(Kind::I64, op) => op.divides(),
        _ => false,
    }
}

/// Whether a piece begins behind the instruction in any case.
pub(crate) fn ends_piece(instr: &Instr) -> bool
    ensures { result ≡ ends_piece (op_of instr.now) }
{
    match instr {
        Instr::Block { .. } | Instr::Loop { .. } | Instr::If { .. } => true,
        Instr::Call(_) | Instr::CallIndirect(_) => true,
        Instr::MemoryGrow | Instr::MemoryCopy | Instr::MemoryFill => true,
        Instr::Num(op) => goes_on_behind(op.operator()),
        _ => false,
    }
}

/// Whether the instruction may stand again behind a step of it, over other operands, so that a piece begins at it in any case.
pub(crate) fn is_repeated(instr: &Instr) -> bool
    ensures { result ≡ is_repeated (op_of instr.now) }
{
    matches!(instr, Instr::MemoryCopy | Instr::MemoryFill)
}
