//! The export that a call names, and the values of its arguments.

ghost use Rattle.std.specs.Prelude.{◌≡◌, IfOk, Some, option_map, position, ◌^◌};
ghost use Rattle.std.specs.Int.{w32, w64};
ghost use Rattle.std.specs.Str.{bytes_eq};
ghost use Rattle.mc_cmd.specs.Packing.{export_view, index_view};
ghost use Rattle.app_words.specs.Arguments as spec;

use mc_cmd::{ExportType, Index};
use mc_nbt::{Kind, Memory, Text, Value};
use std::alloc::Global;

// The signed number of 32 bits that is the same modulo 2^32, where the number lies from -2^31 to 2^32 - 1.
fn wrapped_32(n: i128) -> Option<i32>
    ensures { result ≡ spec.wrapped_within w32 (2 ^ 31) (2 ^ 32) n }
{
    if n < -2_147_483_648 {
        None
    } else if n < 0 {
        Some(n as i32)
    } else if n <= 4_294_967_295 {
        Some((n as u32).cast_signed())
    } else {
        None
    }
}

// The signed number of 64 bits that is the same modulo 2^64, where the number lies from -2^63 to 2^64 - 1.
fn wrapped_64(n: i128) -> Option<i64>
    ensures { result ≡ spec.wrapped_within w64 (2 ^ 63) (2 ^ 64) n }
{
    if n < -9_223_372_036_854_775_808 {
        None
    } else if n < 0 {
        Some(n as i64)
    } else if n <= 18_446_744_073_709_551_615 {
        Some((n as u64).cast_signed())
    } else {
        None
    }
}

fn value_of(kind: Kind, n: i128) -> Option<Value>
    ensures { result ≡ spec.value_of_arg kind n }
{
    match kind {
        Kind::I32 => wrapped_32(n).map(Value::I32),
        Kind::I64 => wrapped_64(n).map(Value::I64),
    }
}

/// The values that the arguments of a call stand for: each is taken modulo 2^N for a parameter of N bits. `None`
/// exactly where there are not as many as parameters, or one doesn't lie from -2^(N-1) to 2^N - 1.
///
/// # Errors
///
/// `Memory` where there is no room for the values.
pub fn arguments(alloc: Global, kinds: &[Kind], args: &[i128]) -> Result<Option<Vec<Value>>, Memory>
    ensures { IfOk result (λ o. option_map (λ v. v.items) o ≡ spec.values_of_args kinds.now args.now) }
{
    if kinds.len() != args.len() {
        return Ok(None);
    }
    let mut values = Vec::new(alloc);
    for (i, kind) in kinds.iter().enumerate() {
        match value_of(*kind, args[i]) {
            Some(value) => values.push(value)?,
            None => return Ok(None),
        }
    }
    Ok(Some(values))
}

fn place_of(exports: &[ExportType], name: &Text) -> Option<usize>
    ensures { result ≡ position (λ e. bytes_eq e.name name.now) exports.now }
{
    exports.iter().position(|e| e.name == *name)
}

/// The first export of this name: its place and its type. `None` exactly where there is none.
pub fn export_named<'a>(index: &'a Index, name: &Text) -> Option<(usize, &'a ExportType)>
    ensures { option_map (λ p. (p.0, export_view p.1.now)) result
        ≡ spec.export_named name.now (index_view index.entry.now).exports }
{
    let exports = index.exports.as_slice();
    match place_of(exports, name) {
        Some(place) => Some((place, &exports[place])),
        None => None,
    }
}
