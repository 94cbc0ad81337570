// The opcodes of operations: sections 5.4.4 and 5.4.5 of the WebAssembly Core Specification 1.0, and 5.4.7 of edition
// 2.0 for the extensions of signs.
ghost use Rattle.std.specs.Prelude.{◌≡◌};
ghost use Rattle.wm_ast.specs.Opcode.{is_float_access as access_test, is_float_operation as operation_test};
ghost use Rattle.wm_decode.specs.steps.Opcodes.{num_at, comparison_at, i32_operation_at, i64_operation_at, conversion_at, load_at, store_at};

use wm_ast::{LoadOp, NumOp, StoreOp};

/// The number operation of an opcode.
pub(crate) fn num_op(opcode: u8) -> Option<NumOp>
    ensures { result ≡ num_at opcode }
{
    comparison(opcode)
        .or(i32_operation(opcode))
        .or(i64_operation(opcode))
        .or(conversion(opcode))
}

// A comparison of integers.
fn comparison(opcode: u8) -> Option<NumOp>
    ensures { result ≡ comparison_at opcode }
{
    match opcode {
        0x45 => Some(NumOp::I32Eqz),
        0x46 => Some(NumOp::I32Eq),
        0x47 => Some(NumOp::I32Ne),
        0x48 => Some(NumOp::I32LtS),
        0x49 => Some(NumOp::I32LtU),
        0x4A => Some(NumOp::I32GtS),
        0x4B => Some(NumOp::I32GtU),
        0x4C => Some(NumOp::I32LeS),
        0x4D => Some(NumOp::I32LeU),
        0x4E => Some(NumOp::I32GeS),
        0x4F => Some(NumOp::I32GeU),
        0x50 => Some(NumOp::I64Eqz),
        0x51 => Some(NumOp::I64Eq),
        0x52 => Some(NumOp::I64Ne),
        0x53 => Some(NumOp::I64LtS),
        0x54 => Some(NumOp::I64LtU),
        0x55 => Some(NumOp::I64GtS),
        0x56 => Some(NumOp::I64GtU),
        0x57 => Some(NumOp::I64LeS),
        0x58 => Some(NumOp::I64LeU),
        0x59 => Some(NumOp::I64GeS),
        0x5A => Some(NumOp::I64GeU),
        _ => None,
    }
}

// An operation on two `i32`, or on one.
fn i32_operation(opcode: u8) -> Option<NumOp>
    ensures { result ≡ i32_operation_at opcode }
{
    match opcode {
        0x67 => Some(NumOp::I32Clz),
        0x68 => Some(NumOp::I32Ctz),
        0x69 => Some(NumOp::I32Popcnt),
        0x6A => Some(NumOp::I32Add),
        0x6B => Some(NumOp::I32Sub),
        0x6C => Some(NumOp::I32Mul),
        0x6D => Some(NumOp::I32DivS),
        0x6E => Some(NumOp::I32DivU),
        0x6F => Some(NumOp::I32RemS),
        0x70 => Some(NumOp::I32RemU),
        0x71 => Some(NumOp::I32And),
        0x72 => Some(NumOp::I32Or),
        0x73 => Some(NumOp::I32Xor),
        0x74 => Some(NumOp::I32Shl),
        0x75 => Some(NumOp::I32ShrS),
        0x76 => Some(NumOp::I32ShrU),
        0x77 => Some(NumOp::I32Rotl),
        0x78 => Some(NumOp::I32Rotr),
        _ => None,
    }
}

// An operation on two `i64`, or on one, but for their product.
fn i64_operation(opcode: u8) -> Option<NumOp>
    ensures { result ≡ i64_operation_at opcode }
{
    match opcode {
        0x79 => Some(NumOp::I64Clz),
        0x7A => Some(NumOp::I64Ctz),
        0x7B => Some(NumOp::I64Popcnt),
        0x7C => Some(NumOp::I64Add),
        0x7D => Some(NumOp::I64Sub),
        0x7F => Some(NumOp::I64DivS),
        0x80 => Some(NumOp::I64DivU),
        0x81 => Some(NumOp::I64RemS),
        0x82 => Some(NumOp::I64RemU),
        0x83 => Some(NumOp::I64And),
        0x84 => Some(NumOp::I64Or),
        0x85 => Some(NumOp::I64Xor),
        0x86 => Some(NumOp::I64Shl),
        0x87 => Some(NumOp::I64ShrS),
        0x88 => Some(NumOp::I64ShrU),
        0x89 => Some(NumOp::I64Rotl),
        0x8A => Some(NumOp::I64Rotr),
        _ => None,
    }
}

// A conversion between integers, or an extension of a sign.
fn conversion(opcode: u8) -> Option<NumOp>
    ensures { result ≡ conversion_at opcode }
{
    match opcode {
        0xA7 => Some(NumOp::I32WrapI64),
        0xAC => Some(NumOp::I64ExtendI32S),
        0xAD => Some(NumOp::I64ExtendI32U),
        0xC0 => Some(NumOp::I32Extend8S),
        0xC1 => Some(NumOp::I32Extend16S),
        0xC2 => Some(NumOp::I64Extend8S),
        0xC3 => Some(NumOp::I64Extend16S),
        0xC4 => Some(NumOp::I64Extend32S),
        _ => None,
    }
}

/// The load of an opcode.
pub(crate) fn load_op(opcode: u8) -> Option<LoadOp>
    ensures { result ≡ load_at opcode }
{
    match opcode {
        0x28 => Some(LoadOp::I32Load),
        0x29 => Some(LoadOp::I64Load),
        0x2C => Some(LoadOp::I32Load8S),
        0x2D => Some(LoadOp::I32Load8U),
        0x2E => Some(LoadOp::I32Load16S),
        0x2F => Some(LoadOp::I32Load16U),
        0x30 => Some(LoadOp::I64Load8S),
        0x31 => Some(LoadOp::I64Load8U),
        0x32 => Some(LoadOp::I64Load16S),
        0x33 => Some(LoadOp::I64Load16U),
        0x34 => Some(LoadOp::I64Load32S),
        0x35 => Some(LoadOp::I64Load32U),
        _ => None,
    }
}

/// The store of an opcode.
pub(crate) fn store_op(opcode: u8) -> Option<StoreOp>
    ensures { result ≡ store_at opcode }
{
    match opcode {
        0x36 => Some(StoreOp::I32Store),
        0x37 => Some(StoreOp::I64Store),
        0x3A => Some(StoreOp::I32Store8),
        0x3B => Some(StoreOp::I32Store16),
        0x3C => Some(StoreOp::I64Store8),
        0x3D => Some(StoreOp::I64Store16),
        0x3E => Some(StoreOp::I64Store32),
        _ => None,
    }
}

/// Whether it is a load or a store of a float.
pub(crate) fn is_float_access(opcode: u8) -> bool
    ensures { result ≡ access_test opcode }
{
    matches!(opcode, 0x2A | 0x2B | 0x38 | 0x39)
}

/// Whether it is an instruction on floats without operands.
pub(crate) fn is_float_operation(opcode: u8) -> bool
    ensures { result ≡ operation_test opcode }
{
    matches!(opcode, 0x5B..=0x66 | 0x8B..=0xA6 | 0xA8..=0xAB | 0xAE..=0xBF)
}
