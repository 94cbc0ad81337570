// What the functions do.
ghost use Rattle.std.specs.Prelude.{◌≡◌, ◌++◌, ◌<◌, OnOk};
ghost use Rattle.wm_ast.specs.View.{code_from};
ghost use Rattle.wm_gen.specs.Shortest.{code_bytes};
ghost use Rattle.wm_gen.specs.Workload.{calling, dividing, form, mixing, storing};

use crate::draws::MULTIPLIER;
use crate::instruction::{Simple, push_all, push_counted};
use mc_nbt::Memory;

fn push_mixing(bytes: &mut Vec<u8>, a: u32) -> Result<(), Memory>
    ensures { OnOk result (bytes.new.items ≡ bytes.old.items ++ code_bytes (code_from (mixing a))) }
{
    let turn = [
        Simple::LocalGet(1),
        Simple::I64(MULTIPLIER),
        Simple::I64Xor,
        Simple::LocalGet(0),
        Simple::I64ExtendI32U,
        Simple::I64Add,
        Simple::LocalSet(1),
        Simple::LocalGet(0),
        Simple::I32(1),
        Simple::I32Sub,
        Simple::LocalTee(0),
        Simple::BrIf(0),
    ];
    push_counted(bytes, 16 + a % 16, &turn)
}

fn push_storing(bytes: &mut Vec<u8>, a: u32, b: u32) -> Result<(), Memory>
    ensures { OnOk result (bytes.new.items ≡ bytes.old.items ++ code_bytes (code_from (storing a b))) }
{
    let offset = b % 1024;
    let turn = [
        Simple::LocalGet(0),
        Simple::I32(4),
        Simple::I32Mul,
        Simple::LocalGet(0),
        Simple::I32(a),
        Simple::I32Mul,
        Simple::Store(offset),
        Simple::LocalGet(1),
        Simple::LocalGet(0),
        Simple::I32(4),
        Simple::I32Mul,
        Simple::Load(offset),
        Simple::I64Add,
        Simple::LocalSet(1),
        Simple::LocalGet(0),
        Simple::I32(1),
        Simple::I32Sub,
        Simple::LocalTee(0),
        Simple::BrIf(0),
    ];
    push_counted(bytes, 64, &turn)
}

fn push_calling(bytes: &mut Vec<u8>, func: u32, a: u32) -> Result<(), Memory>
    ensures { OnOk result (bytes.new.items ≡ bytes.old.items ++ code_bytes (code_from (calling func a))) }
{
    push_all(
        bytes,
        &[
            Simple::Call(func),
            Simple::I64(u64::from(a)),
            Simple::I64Xor,
        ],
    )
}

fn push_dividing(bytes: &mut Vec<u8>, a: u32, b: u32) -> Result<(), Memory>
    ensures { OnOk result (bytes.new.items ≡ bytes.old.items ++ code_bytes (code_from (dividing a b))) }
{
    let divisor = u64::from(1 + b % 1000);
    push_all(
        bytes,
        &[
            Simple::I64(u64::from(a) * 2_147_483_648 + u64::from(b)),
            Simple::I64(divisor),
            Simple::I64DivU,
            Simple::I64(u64::from(a)),
            Simple::I64(divisor),
            Simple::I64RemU,
            Simple::I64Xor,
        ],
    )
}

// Adds what the function of this index does, in the form of this number.
pub(crate) fn push_form(
    bytes: &mut Vec<u8>,
    kind: u32,
    index: u32,
    a: u32,
    b: u32,
) -> Result<(), Memory>
    ensures { OnOk result (bytes.new.items ≡ bytes.old.items ++ code_bytes (code_from (form kind index a b))) }
{
    match kind {
        0 => push_mixing(bytes, a),
        1 => push_storing(bytes, a, b),
        2 if index == 0 => push_mixing(bytes, a),
        2 => push_calling(bytes, index - 1, a),
        _ => push_dividing(bytes, a, b),
    }
}
