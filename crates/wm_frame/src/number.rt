// Numbers: LEB128, as section 5.2.2 of the WebAssembly Core Specification 1.0 has it.
ghost use Rattle.std.specs.Prelude.{◌≡◌, ◌-◌, ◌^◌, ◌<◌, ◌≤◌, ℕ, List, length, option_map, IfSome, nat_lt, pos, ◌+ℤ◌, ◌*ℤ◌, FitsSigned};
ghost use Rattle.std.specs.Int.{w32, w64};
ghost use Rattle.wm_frame.specs.Front.{Unsigned, Signed};
ghost use Rattle.wm_frame.specs.Read.{IsFirst, IsRead};
ghost use Rattle.wm_frame.specs.Reading.{unsigned_at, signed_at, signed_last as last_of, IsWithin};

/// A place in a slice, and the end of the part that is read.
#[derive(Clone, Copy, Debug, PartialEq, Eq)]
pub struct Cursor {
    /// The index of the next byte.
    pub at: usize,
    /// The index after the last byte that is read.
    pub end: usize,
}

/// Reads an unsigned number of at most 32 bits at the cursor (5.2.2), in any of its spellings.
///
/// The cursor then stands after it. `None` where the bytes up to the cursor's end begin with no such number: the
/// cursor is then where it was.
pub fn read_u32(bytes: &[u8], c: &mut Cursor) -> Option<u32>
    requires ordered { c.old.at ≤ c.old.end }
    requires within { c.old.end ≤ length bytes.now }
    ensures { IsRead (Unsigned 32) bytes.now c.old c.new result }
{
    let (n, rest) = u32_at(&bytes[c.at..c.end])?;
    c.at = c.end - rest.len();
    Some(n)
}

/// Reads a signed number of at most 32 bits at the cursor (5.2.2), as `read_u32` does an unsigned one.
pub fn read_s32(bytes: &[u8], c: &mut Cursor) -> Option<i32>
    requires ordered { c.old.at ≤ c.old.end }
    requires within { c.old.end ≤ length bytes.now }
    ensures { IsRead (Signed 32) bytes.now c.old c.new result }
{
    let (n, rest) = s32_at(&bytes[c.at..c.end])?;
    c.at = c.end - rest.len();
    Some(n)
}

/// Reads a signed number of at most 64 bits at the cursor (5.2.2), as `read_u32` does an unsigned one.
pub fn read_s64(bytes: &[u8], c: &mut Cursor) -> Option<i64>
    requires ordered { c.old.at ≤ c.old.end }
    requires within { c.old.end ≤ length bytes.now }
    ensures { IsRead (Signed 64) bytes.now c.old c.new result }
{
    let (n, rest) = s64_at(&bytes[c.at..c.end])?;
    c.at = c.end - rest.len();
    Some(n)
}

/// The unsigned number of at most 32 bits at the front of the bytes, and the bytes after it (5.2.2).
///
/// `None` where the bytes begin with no such number.
#[tactic(auto, using(crate::proofs::Bounds::powers))]
pub fn u32_at(bytes: &[u8]) -> Option<(u32, &[u8])>
    ensures { IsFirst (Unsigned 32) (unsigned_at 32) bytes.now (option_map (λ x. (x.0, x.1.now)) result) }
{
    let (n, rest) = unsigned(bytes, 32)?;
    Some((n as u32, rest))
}

/// The signed number of at most 32 bits at the front of the bytes, and the bytes after it (5.2.2).
///
/// `None` where the bytes begin with no such number.
pub fn s32_at(bytes: &[u8]) -> Option<(i32, &[u8])>
    ensures first { IsFirst (Signed 32) (signed_at 32) bytes.now (option_map (λ x. (x.0, x.1.now)) result) }
    ensures range { IfSome result (λ x. FitsSigned w32 x.0) }
{
    let (n, rest) = signed(bytes, 32)?;
    Some((n as i32, rest))
}

/// The signed number of at most 64 bits at the front of the bytes, and the bytes after it (5.2.2).
///
/// `None` where the bytes begin with no such number.
pub fn s64_at(bytes: &[u8]) -> Option<(i64, &[u8])>
    ensures first { IsFirst (Signed 64) (signed_at 64) bytes.now (option_map (λ x. (x.0, x.1.now)) result) }
    ensures range { IfSome result (λ x. FitsSigned w64 x.0) }
{
    signed(bytes, 64)
}

// The unsigned number of at most `bits` bits at the front, and the bytes after it.
#[tactic(auto, unfolding(crate::specs::Reading::unsigned_at), using(crate::proofs::Bounds::powers))]
fn unsigned(bytes: &[u8], bits: u32) -> Option<(u64, &[u8])>
    requires { bits ≤ 64 }
    ensures exact { option_map (λ x. (x.0, x.1.now)) result ≡ unsigned_at bits bytes.now }
    ensures small { IfSome result (λ x. x.0 < 2 ^ bits) }
    ensures shorter { IfSome result (λ x. length x.1.now < length bytes.now) }
{
    match bytes {
        [] => None,
        [b, rest @ ..] => {
            if *b < 128 {
                if fits(*b, bits) {
                    Some((u64::from(*b), rest))
                } else {
                    None
                }
            } else if bits <= 7 {
                None
            } else {
                let (high, rest) = unsigned(rest, bits - 7)?;
                Some((128 * high + u64::from(*b - 128), rest))
            }
        }
    }
}

// Whether a byte has no bit above the lowest `bits`.
#[tactic(auto, using(crate::proofs::Bounds::powers))]
fn fits(b: u8, bits: u32) -> bool
    ensures { result ≡ nat_lt b (2 ^ bits) }
{
    bits >= 8 || b < 1 << bits
}

// The signed number of at most `bits` bits at the front, and the bytes after it.
#[tactic(auto, unfolding(crate::specs::Reading::signed_at), using(crate::proofs::Bounds::powers))]
fn signed(bytes: &[u8], bits: u32) -> Option<(i64, &[u8])>
    requires low { 0 < bits }
    requires high { bits ≤ 64 }
    ensures exact { option_map (λ x. (x.0, x.1.now)) result ≡ signed_at bits bytes.now }
    ensures small { IfSome result (λ x. IsWithin bits x.0) }
    ensures shorter { IfSome result (λ x. length x.1.now < length bytes.now) }
{
    match bytes {
        [] => None,
        [b, rest @ ..] => {
            if *b < 128 {
                let n = signed_last(*b, bits)?;
                Some((n, rest))
            } else if bits <= 7 {
                None
            } else {
                let (high, rest) = signed(rest, bits - 7)?;
                Some((join(high, *b - 128, bits), rest))
            }
        }
    }
}

// What a last byte stands for. Its bit 64 is the sign, and the bits above `bits` repeat it.
#[tactic(auto, unfolding(wm_ast::specs::Number::below_zero), using(crate::proofs::Bounds::powers))]
fn signed_last(b: u8, bits: u32) -> Option<i64>
    requires byte { b < 128 }
    requires low { 0 < bits }
    ensures exact { (rest : List ℕ) → option_map (λ n. (n, rest)) result ≡ last_of bits b rest }
    ensures small { IfSome result (λ n. IsWithin bits n) }
{
    if b < 64 {
        if fits(b, bits - 1) {
            Some(i64::from(b))
        } else {
            None
        }
    } else if fits(127 - b, bits - 1) {
        Some(i64::from(b) - 128)
    } else {
        None
    }
}

// Seven more bits below a number.
fn join(high: i64, low: u8, bits: u32) -> i64
    requires more { 7 < bits }
    requires most { bits ≤ 64 }
    requires seven { low < 128 }
    requires within { IsWithin (bits - 7) high }
    ensures value { result ≡ (pos 128 *ℤ high) +ℤ pos low }
    ensures small { IsWithin bits result }
{
    128 * high + i64::from(low)
}
