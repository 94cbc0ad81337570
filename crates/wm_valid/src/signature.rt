// What the instructions on numbers and on memory take and give: sections 3.3.1 and 3.3.4 of the WebAssembly Core
// Specification, edition 1.0.
ghost use Rattle.std.specs.Prelude.{◌≡◌, [], ◌∷◌};
ghost use Rattle.wm_ast.specs.declared.module.ValType.TheVariants.{I32};
ghost use Rattle.wm_ast.specs.Operation.{unary as unary_type, binary as binary_type, test as test_type, comparison as comparison_type, conversion as conversion_type, kind_type, num_type, load_type, load_width, store_type, store_width};
ghost use Rattle.wm_ast.specs.Types.{results_of};
ghost use Rattle.wm_valid.specs.steps.Found.{seen};

use mc_nbt::Kind;
use wm_ast::{LoadOp, NumOp, Operator, StoreOp, ValType};

/// The operands that an instruction takes and gives, the last at the end.
#[derive(Clone, Copy, Debug)]
pub(crate) struct Signature<'a> {
    pub takes: &'a [ValType],
    pub gives: &'a [ValType],
}

/// An operand of this type.
pub(crate) fn one(ty: ValType) -> &'static [ValType]
    ensures { result.now ≡ ty ∷ [] }
{
    match ty {
        ValType::I32 => &[ValType::I32],
        ValType::I64 => &[ValType::I64],
        ValType::F32 => &[ValType::F32],
        ValType::F64 => &[ValType::F64],
    }
}

// Two operands of this type.
fn two(ty: ValType) -> &'static [ValType]
    ensures { result.now ≡ ty ∷ ty ∷ [] }
{
    match ty {
        ValType::I32 => &[ValType::I32, ValType::I32],
        ValType::I64 => &[ValType::I64, ValType::I64],
        ValType::F32 => &[ValType::F32, ValType::F32],
        ValType::F64 => &[ValType::F64, ValType::F64],
    }
}

/// An address, and an operand of this type.
pub(crate) fn with_address(ty: ValType) -> &'static [ValType]
    ensures { result.now ≡ I32 ∷ ty ∷ [] }
{
    match ty {
        ValType::I32 => &[ValType::I32, ValType::I32],
        ValType::I64 => &[ValType::I32, ValType::I64],
        ValType::F32 => &[ValType::I32, ValType::F32],
        ValType::F64 => &[ValType::I32, ValType::F64],
    }
}

/// What a block gives.
pub(crate) fn results<'a>(ty: Option<ValType>) -> &'a [ValType]
    ensures { result.now ≡ results_of ty }
{
    match ty {
        None => &[],
        Some(ty) => one(ty),
    }
}

// One operand, and a result of its type.
fn unary(ty: ValType) -> Signature<'static>
    ensures { seen result ≡ unary_type ty }
{
    conversion(ty, ty)
}

// Two operands, and a result of their type.
fn binary(ty: ValType) -> Signature<'static>
    ensures { seen result ≡ binary_type ty }
{
    Signature {
        takes: two(ty),
        gives: one(ty),
    }
}

// One operand, and a truth value.
fn test(ty: ValType) -> Signature<'static>
    ensures { seen result ≡ test_type ty }
{
    conversion(ty, ValType::I32)
}

// Two operands, and a truth value.
fn comparison(ty: ValType) -> Signature<'static>
    ensures { seen result ≡ comparison_type ty }
{
    Signature {
        takes: two(ty),
        gives: one(ValType::I32),
    }
}

// From the one type to the other.
fn conversion(from: ValType, to: ValType) -> Signature<'static>
    ensures { seen result ≡ conversion_type from to }
{
    Signature {
        takes: one(from),
        gives: one(to),
    }
}

// The value type of a kind.
fn type_of(kind: Kind) -> ValType
    ensures { result ≡ kind_type kind }
{
    match kind {
        Kind::I32 => ValType::I32,
        Kind::I64 => ValType::I64,
    }
}

/// What a number operation takes and gives.
pub(crate) fn num_signature(op: NumOp) -> Signature<'static>
    ensures { seen result ≡ num_type op }
{
    match op.operator() {
        Operator::Test(kind) => test(type_of(kind)),
        Operator::Unary(kind, _) => unary(type_of(kind)),
        Operator::Binary(kind, _) => binary(type_of(kind)),
        Operator::Comparison(kind, _) => comparison(type_of(kind)),
        Operator::Wrap => conversion(ValType::I64, ValType::I32),
        Operator::ExtendS | Operator::ExtendU => conversion(ValType::I32, ValType::I64),
    }
}

/// The type of what a load gives, and how many bytes it reads.
pub(crate) fn loaded(op: LoadOp) -> (ValType, u32)
    ensures ty { result.0 ≡ load_type op }
    ensures width { result.1 ≡ load_width op }
{
    use LoadOp::*;
    match op {
        I32Load => (ValType::I32, 4),
        I32Load8S | I32Load8U => (ValType::I32, 1),
        I32Load16S | I32Load16U => (ValType::I32, 2),
        I64Load => (ValType::I64, 8),
        I64Load8S | I64Load8U => (ValType::I64, 1),
        I64Load16S | I64Load16U => (ValType::I64, 2),
        I64Load32S | I64Load32U => (ValType::I64, 4),
    }
}

/// The type of what a store writes, and how many bytes.
pub(crate) fn stored(op: StoreOp) -> (ValType, u32)
    ensures ty { result.0 ≡ store_type op }
    ensures width { result.1 ≡ store_width op }
{
    use StoreOp::*;
    match op {
        I32Store => (ValType::I32, 4),
        I32Store8 => (ValType::I32, 1),
        I32Store16 => (ValType::I32, 2),
        I64Store => (ValType::I64, 8),
        I64Store8 => (ValType::I64, 1),
        I64Store16 => (ValType::I64, 2),
        I64Store32 => (ValType::I64, 4),
    }
}
