// What calls need to know of a function's frame.
ghost use Rattle.std.specs.Prelude.{◌≡◌, ◌*◌, IfOk};

use mc_nbt::Memory;

/// What is known of a function: how many places its parameters have, all its locals, and its frame; and to how many of
/// them shared pieces put values.
#[derive(Clone, Copy)]
pub struct Shape {
    pub params: u32,
    pub locals: u32,
    pub size: u32,
    pub placers: u32,
}

/// A product.
///
/// # Errors
///
/// `Memory` where it is 2^32 or more.
pub fn product(one: u32, other: u32) -> Result<u32, Memory>
    ensures { IfOk result (λ n. n ≡ one * other) }
{
    match one.checked_mul(other) {
        Some(product) => Ok(product),
        None => Err(Memory),
    }
}
