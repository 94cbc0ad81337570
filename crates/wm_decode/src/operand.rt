// What stands behind opcodes: sections 5.2.2, 5.3.1, 5.3.2 and 5.4 of the WebAssembly Core Specification 1.0.
ghost use Rattle.std.specs.Prelude.{◌≡◌, ◌<◌, ◌≤◌, length, IfOk};
ghost use Rattle.wm_frame.specs.Reading.{unsigned_at, signed_at};
ghost use Rattle.wm_decode.specs.steps.Gives.{Gives};
ghost use Rattle.wm_decode.specs.steps.Instruction.{block_type_at, skip_at};
ghost use Rattle.wm_decode.specs.steps.Listing.{byte_at};
ghost use Rattle.wm_decode.specs.steps.ValueType.{val_type as value_type};

use crate::fault::Fault;
use wm_ast::ValType;
use wm_frame::{s32_at, s64_at, u32_at};

/// The value type of a byte.
pub(crate) fn val_type(byte: u8) -> Option<ValType>
    ensures { result ≡ value_type byte }
{
    match byte {
        0x7F => Some(ValType::I32),
        0x7E => Some(ValType::I64),
        0x7D => Some(ValType::F32),
        0x7C => Some(ValType::F64),
        _ => None,
    }
}

/// A block type.
#[tactic(auto, unfolding(crate::specs::steps::Instruction::block_type_at))]
pub(crate) fn block_type(bytes: &[u8]) -> Result<(Option<ValType>, &[u8]), Fault>
    ensures exact { Gives (λ x. (x.0, x.1.now)) result (block_type_at bytes.now) }
    ensures shorter { IfOk result (λ x. length x.1.now < length bytes.now) }
{
    match bytes {
        [] => Err(Fault::Malformed),
        [0x40, rest @ ..] => Ok((None, rest)),
        [byte, rest @ ..] => match val_type(*byte) {
            Some(ty) => Ok((Some(ty), rest)),
            None => Err(Fault::Malformed),
        },
    }
}

/// What follows the byte.
#[tactic(auto, unfolding(crate::specs::steps::Listing::byte_at))]
pub(crate) fn byte(wanted: u8, bytes: &[u8]) -> Result<&[u8], Fault>
    ensures exact { Gives (λ x. x.now) result (byte_at wanted bytes.now) }
    ensures shorter { IfOk result (λ x. length x.now < length bytes.now) }
{
    match bytes {
        [first, rest @ ..] if *first == wanted => Ok(rest),
        _ => Err(Fault::Malformed),
    }
}

/// An unsigned number of at most 32 bits, such as an index.
pub(crate) fn index(bytes: &[u8]) -> Result<(u32, &[u8]), Fault>
    ensures exact { Gives (λ x. (x.0, x.1.now)) result (unsigned_at 32 bytes.now) }
    ensures shorter { IfOk result (λ x. length x.1.now < length bytes.now) }
{
    u32_at(bytes).ok_or(Fault::Malformed)
}

/// A signed number of at most 32 bits.
pub(crate) fn signed32(bytes: &[u8]) -> Result<(i32, &[u8]), Fault>
    ensures exact { Gives (λ x. (x.0, x.1.now)) result (signed_at 32 bytes.now) }
    ensures shorter { IfOk result (λ x. length x.1.now < length bytes.now) }
{
    s32_at(bytes).ok_or(Fault::Malformed)
}

/// A signed number of at most 64 bits.
pub(crate) fn signed64(bytes: &[u8]) -> Result<(i64, &[u8]), Fault>
    ensures exact { Gives (λ x. (x.0, x.1.now)) result (signed_at 64 bytes.now) }
    ensures shorter { IfOk result (λ x. length x.1.now < length bytes.now) }
{
    s64_at(bytes).ok_or(Fault::Malformed)
}

/// The bytes after so many, whichever they are.
#[tactic(auto, unfolding(crate::specs::steps::Instruction::skip_at))]
pub(crate) fn skip(count: usize, bytes: &[u8]) -> Result<&[u8], Fault>
    ensures exact { Gives (λ x. x.now) result (skip_at count bytes.now) }
    ensures shorter { IfOk result (λ x. length x.now ≤ length bytes.now) }
{
    bytes.get(count..).ok_or(Fault::Malformed)
}
