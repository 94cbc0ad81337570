// The bytes of names, strings and ints, and the range of ints.
ghost use Rattle.std.specs.Prelude.{◌≡◌};
ghost use Rattle.mc_nbt.specs.Word as word;
ghost use Rattle.mc_nbt.specs.steps.Reading as reading;

pub(crate) fn is_name_byte(c: u8) -> bool
    ensures { result ≡ word.is_name_byte c }
{
    c.is_ascii_alphanumeric() || c == b'_'
}

pub(crate) fn is_string_byte(c: u8) -> bool
    ensures { result ≡ word.is_string_byte c }
{
    (b' '..=b'~').contains(&c) && c != b'"' && c != b'\\'
}

pub(crate) fn is_digit(c: u8) -> bool
    ensures { result ≡ reading.is_digit c }
{
    c.is_ascii_digit()
}

// Every int is in range: it is an `i32`.
pub(crate) fn is_in_range(_int: i32) -> bool
    ensures { result ≡ word.is_int _int }
{
    true
}
