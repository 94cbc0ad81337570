//! The two ints that stand for an i64 in a pack.

ghost use Rattle.std.specs.Prelude.{◌≡◌};
ghost use Rattle.std.specs.Int.{int_wrap, w32};
ghost use Rattle.mc_cmd.specs.Pack as pack;

/// The low half of an i64: its number modulo 2^32, as a signed one.
pub fn low_half(value: i64) -> i32
    ensures { result ≡ int_wrap w32 value }
{
    (value.rem_euclid(4_294_967_296) as u32).cast_signed()
}

/// The high half of an i64: the number of times that 2^32 goes into it, rounded down.
pub fn high_half(value: i64) -> i32
    ensures { result ≡ pack.high_half value }
{
    value.div_euclid(4_294_967_296) as i32
}
