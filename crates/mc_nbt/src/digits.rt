// The digits of ints, read one by one.
ghost use Rattle.std.specs.Prelude.{◌≡◌, true};
ghost use Rattle.mc_nbt.specs.steps.Reading.{is_digit};
ghost use Rattle.mc_nbt.specs.steps.ScanView as spec;

// The int of a `-` and this digit; `-0` is none.
pub(crate) fn first_negative(c: u8) -> Option<i32>
    ensures { result ≡ spec.first_negative c }
{
    match c {
        b'1'..=b'9' => Some(b'0' as i32 - c as i32),
        _ => None,
    }
}

// The number with this digit behind it.
fn with_digit(z: i32, digit: u8) -> i64
    ensures { result ≡ spec.with_digit z digit }
{
    if z < 0 {
        10 * z as i64 - digit as i64
    } else {
        10 * z as i64 + digit as i64
    }
}

// The int with this digit behind it: none where it leaves its range, or would begin with a 0.
pub(crate) fn more_digits(z: i32, c: u8) -> Option<i32>
    requires { is_digit c ≡ true }
    ensures { result ≡ spec.more_digits z c }
{
    if z == 0 {
        return None;
    }
    i32::try_from(with_digit(z, c - b'0')).ok()
}
