//! The numbers of scripts, each in its one spelling.

ghost use Rattle.std.specs.Prelude.{◌≡◌, ◌<◌, ◌≤◌, is_some};
ghost use Rattle.mc_cmd.specs.declared.TheConstants.{BMIN};
ghost use Rattle.app_words.specs.Script.{address, argument, budget, byte_count, count, digits, low_budget};
ghost use Rattle.app_words.specs.steps.WordsReading.{workload_number, workload_size};

use crate::act::ByteCount;
use crate::budget::Budget;
use itoa::Buffer;

/// The least number of 21 digits.
const TOO_LONG: u128 = 100_000_000_000_000_000_000;

/// The greatest number of ticks of one line.
const MAX_TICKS: u128 = 1_000_000;

// The number that at most 20 decimal digits spell, without leading zeros and without sign.
pub(crate) fn read_digits(w: &[u8]) -> Option<u128>
    ensures { result ≡ digits.read w.now }
{
    let Ok(text) = std::str::from_utf8(w) else {
        return None;
    };
    let Ok(number) = text.parse::<u128>() else {
        return None;
    };
    if number >= TOO_LONG {
        return None;
    }
    if Buffer::new().format(number) == text {
        Some(number)
    } else {
        None
    }
}

pub(crate) fn read_argument(w: &[u8]) -> Option<i128>
    ensures { result ≡ argument.read w.now }
{
    match w {
        [] => None,
        [b'-', rest @ ..] => match read_digits(rest) {
            Some(number) if number > 0 => Some(-(number as i128)),
            _ => None,
        },
        [..] => match read_digits(w) {
            Some(number) => Some(number as i128),
            None => None,
        },
    }
}

pub(crate) fn read_count(w: &[u8]) -> Option<u32>
    ensures { result ≡ count.read w.now }
{
    match read_digits(w) {
        Some(number) if number >= 1 && number <= MAX_TICKS => Some(number as u32),
        _ => None,
    }
}

/// The number of 32 bits that decimal digits spell, without leading zeros and without sign; `None` where they spell
/// none.
pub fn read_u32(w: &[u8]) -> Option<u32>
    ensures { result ≡ address.read w.now }
{
    match read_digits(w) {
        Some(number) if number <= 4_294_967_295 => Some(number as u32),
        _ => None,
    }
}

// The number of a workload.
pub(crate) fn read_workload_number(w: &[u8]) -> Option<u64>
    ensures { result ≡ workload_number.read w.now }
{
    match read_digits(w) {
        Some(number) if number <= 18_446_744_073_709_551_615 => Some(number as u64),
        _ => None,
    }
}

// The size of a workload.
pub(crate) fn read_workload_size(w: &[u8]) -> Option<u32>
    ensures { result ≡ workload_size.read w.now }
{
    match read_digits(w) {
        Some(number) if number >= 1 && number <= 1000 => Some(number as u32),
        _ => None,
    }
}

pub(crate) fn read_byte_count(w: &[u8]) -> Option<ByteCount>
    ensures { result ≡ byte_count.read w.now }
{
    match read_u32(w) {
        Some(number) => ByteCount::new(number),
        None => None,
    }
}

pub(crate) fn read_budget(w: &[u8], least: u32) -> Option<Budget>
    requires { BMIN ≤ least }
    ensures { result ≡ (budget least).read w.now }
{
    match read_u32(w) {
        Some(number) => Budget::new(least, number),
        None => None,
    }
}

// Whether the number would be a budget, but is too low for one.
pub(crate) fn is_low_budget(w: &[u8], least: u32) -> bool
    ensures { result ≡ is_some ((low_budget least).read w.now) }
{
    match read_u32(w) {
        Some(number) => number < least,
        None => false,
    }
}
