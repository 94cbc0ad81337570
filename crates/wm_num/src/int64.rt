// The operators on integers of the type i64, as `u64`.
ghost use Rattle.std.specs.Prelude.{◌≡◌, ◌==◌};
ghost use Rattle.std.specs.Int.{w64};
ghost use Rattle.mc_nbt.specs.declared.value.Kind.TheVariants.{I64};
ghost use Rattle.wm_ast.specs.Apply.{unary_op, binary_op, compare_op, gives, outcome};
ghost use Rattle.wm_ast.specs.Integer.{irotl, irotr};
ghost use Rattle.wm_ast.specs.declared.operator.UnaryOp.TheVariants.{Extend8S, Extend16S, Extend32S};
ghost use Rattle.wm_ast.specs.declared.operator.BinaryOp.TheVariants.{DivS, DivU, RemS, RemU};

use mc_nbt::Value;
use wm_ast::{Answer, BinaryOp, CompareOp, TrapKind, UnaryOp};

/// An integer as an answer.
pub(crate) fn value(i: u64) -> Answer
    ensures { result ≡ gives I64 i }
{
    Answer::Value(Value::I64(i.cast_signed()))
}

/// The low 8 bits as a signed number.
fn extend8(i: u64) -> u64
    ensures { result ≡ unary_op Extend8S w64 i }
{
    let low = (i % 256) as u8;
    i64::from(low.cast_signed()).cast_unsigned()
}

/// The low 16 bits as a signed number.
fn extend16(i: u64) -> u64
    ensures { result ≡ unary_op Extend16S w64 i }
{
    let low = (i % 65536) as u16;
    i64::from(low.cast_signed()).cast_unsigned()
}

/// The low 32 bits as a signed number.
fn extend32(i: u64) -> u64
    ensures { result ≡ unary_op Extend32S w64 i }
{
    let low = (i % 4294967296) as u32;
    i64::from(low.cast_signed()).cast_unsigned()
}

/// An operator of one operand.
pub(crate) fn unary(op: UnaryOp, i: u64) -> u64
    ensures { result ≡ unary_op op w64 i }
{
    match op {
        UnaryOp::Clz => u64::from(i.leading_zeros()),
        UnaryOp::Ctz => u64::from(i.trailing_zeros()),
        UnaryOp::Popcnt => u64::from(i.count_ones()),
        UnaryOp::Extend8S => extend8(i),
        UnaryOp::Extend16S => extend16(i),
        UnaryOp::Extend32S => extend32(i),
    }
}

/// The signed quotient. That of the least number by -1 is no `i64`.
fn quotient(i: u64, j: u64) -> Answer
    ensures { result ≡ outcome I64 (binary_op DivS w64 i j) }
{
    let a = i.cast_signed();
    let b = j.cast_signed();
    if b == 0 {
        Answer::Trap(TrapKind::DivideByZero)
    } else if a == i64::MIN && b == -1 {
        Answer::Trap(TrapKind::Overflow)
    } else {
        value((a / b).cast_unsigned())
    }
}

/// The remainder of the signed quotient, with the dividend's sign.
fn remainder(i: u64, j: u64) -> Answer
    ensures { result ≡ outcome I64 (binary_op RemS w64 i j) }
{
    let b = j.cast_signed();
    if b == 0 {
        Answer::Trap(TrapKind::DivideByZero)
    } else {
        value(i.cast_signed().wrapping_rem(b).cast_unsigned())
    }
}

/// The unsigned quotient.
fn unsigned_quotient(i: u64, j: u64) -> Answer
    ensures { result ≡ outcome I64 (binary_op DivU w64 i j) }
{
    if j == 0 {
        Answer::Trap(TrapKind::DivideByZero)
    } else {
        value(i / j)
    }
}

/// The remainder of the unsigned quotient.
fn unsigned_remainder(i: u64, j: u64) -> Answer
    ensures { result ≡ outcome I64 (binary_op RemU w64 i j) }
{
    if j == 0 {
        Answer::Trap(TrapKind::DivideByZero)
    } else {
        value(i % j)
    }
}

/// A rotation to the left.
fn rotated_left(i: u64, j: u64) -> u64
    ensures { result ≡ irotl w64 i j }
{
    i.rotate_left((j % 64) as u32)
}

/// A rotation to the right.
fn rotated_right(i: u64, j: u64) -> u64
    ensures { result ≡ irotr w64 i j }
{
    i.rotate_right((j % 64) as u32)
}

/// An operator of two operands.
pub(crate) fn binary(op: BinaryOp, i: u64, j: u64) -> Answer
    ensures { result ≡ outcome I64 (binary_op op w64 i j) }
{
    match op {
        BinaryOp::Add => value(i.wrapping_add(j)),
        BinaryOp::Sub => value(i.wrapping_sub(j)),
        BinaryOp::Mul => value(i.wrapping_mul(j)),
        BinaryOp::DivS => quotient(i, j),
        BinaryOp::DivU => unsigned_quotient(i, j),
        BinaryOp::RemS => remainder(i, j),
        BinaryOp::RemU => unsigned_remainder(i, j),
        BinaryOp::And => value(i & j),
        BinaryOp::Or => value(i | j),
        BinaryOp::Xor => value(i ^ j),
        BinaryOp::Shl => value(i.wrapping_shl((j % 64) as u32)),
        BinaryOp::ShrS => value(
            i.cast_signed()
                .wrapping_shr((j % 64) as u32)
                .cast_unsigned(),
        ),
        BinaryOp::ShrU => value(i.wrapping_shr((j % 64) as u32)),
        BinaryOp::Rotl => value(rotated_left(i, j)),
        BinaryOp::Rotr => value(rotated_right(i, j)),
    }
}

/// A comparison.
pub(crate) fn compare(op: CompareOp, i: u64, j: u64) -> bool
    ensures { result ≡ compare_op op w64 i j }
{
    match op {
        CompareOp::Eq => i == j,
        CompareOp::Ne => i != j,
        CompareOp::LtS => i.cast_signed() < j.cast_signed(),
        CompareOp::LtU => i < j,
        CompareOp::GtS => i.cast_signed() > j.cast_signed(),
        CompareOp::GtU => i > j,
        CompareOp::LeS => i.cast_signed() <= j.cast_signed(),
        CompareOp::LeU => i <= j,
        CompareOp::GeS => i.cast_signed() >= j.cast_signed(),
        CompareOp::GeU => i >= j,
    }
}
