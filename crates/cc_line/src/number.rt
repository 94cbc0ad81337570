// Numbers of places and pieces.
ghost use Rattle.std.specs.Prelude.{◌≡◌, ◌≤◌, ◌+◌, ◌^◌, MatchResult, pos, suc};

use mc_nbt::Memory;

/// A sum; no memory exactly where it is 2^32 or more.
pub fn sum(one: u32, other: u32) -> Result<u32, Memory>
    ensures { MatchResult result (λ n. n ≡ one + other) (λ _. 2 ^ 32 ≤ one + other) }
{
    match one.checked_add(other) {
        Some(sum) => Ok(sum),
        None => Err(Memory),
    }
}

/// The place behind this one; no memory exactly where it has no number.
pub fn next_place(place: u32) -> Result<u32, Memory>
    ensures { MatchResult result (λ p. p ≡ suc place) (λ _. 2 ^ 32 ≤ suc place) }
{
    match place.checked_add(1) {
        Some(next) => Ok(next),
        None => Err(Memory),
    }
}

/// A number as an int; no memory exactly where it is none.
pub fn int_of(number: u32) -> Result<i32, Memory>
    ensures { MatchResult result (λ z. z ≡ pos number) (λ _. 2 ^ 31 ≤ number) }
{
    if number >= 2_147_483_648 {
        return Err(Memory);
    }
    Ok(number as i32)
}
