// How many places values take.
ghost use Rattle.std.specs.Prelude.{◌≡◌, IfOk};
ghost use Rattle.cc_cut.specs.Law as spec;

use cc_line::sum;
use mc_nbt::Memory;
use wm_ast::ValType;

/// The places of a value of this type: 2 of 64 bits, 1 of 32.
pub fn width(ty: ValType) -> u32
    ensures { result ≡ spec.width ty }
{
    match ty {
        ValType::I64 | ValType::F64 => 2,
        ValType::I32 | ValType::F32 => 1,
    }
}

/// The places of values of these types.
///
/// # Errors
///
/// `Memory` where their number is no `u32`, which no module of the profile has.
pub fn widths(types: &[ValType]) -> Result<u32, Memory>
    ensures { IfOk result (λ n. n ≡ spec.widths types.now) }
{
    let mut total = 0u32;
    for ty in types {
        total = sum(total, width(*ty))?;
    }
    Ok(total)
}
