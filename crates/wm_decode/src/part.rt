// What stands in the lists of the binary format, and the lists.
ghost use Rattle.std.specs.Prelude.{◌<◌, List, ℕ, Option, IfOk, length};
ghost use Rattle.wm_frame.specs.Reading.{unsigned_at};
ghost use Rattle.wm_decode.specs.steps.Gives.{Gives};
ghost use Rattle.wm_decode.specs.steps.Listing.{times_at, list_at, bytes_at, name_at, with_rest, whole as used_up};

use crate::fault::Fault;
use crate::operand::index;
use mc_nbt::Text;
use std::alloc::Global;
use wm_ast::{Items, U32s};

/// What stands in a list of the binary format.
pub(crate) trait Part: Sized + Drop {
    ghost at: { List ℕ → Option (Self × List ℕ) };

    /// The one at the front of the bytes, and the bytes after it.
    fn read(alloc: Global, bytes: &[u8]) -> Result<(Self, &[u8]), Fault>
        ensures { Gives (λ x. (x.0, x.1.now)) result (at bytes.now) };
}

impl Part for u32 {
    ghost at = { unsigned_at 32 };

    fn read(_alloc: Global, bytes: &[u8]) -> Result<(u32, &[u8]), Fault> {
        index(bytes)
    }
}

/// A count and that many bytes, and the bytes after these.
#[tactic(auto, unfolding(crate::specs::steps::Listing::bytes_at))]
pub(crate) fn counted(bytes: &[u8]) -> Result<(&[u8], &[u8]), Fault>
    ensures { Gives (λ x. (x.0.now, x.1.now)) result (bytes_at bytes.now) }
{
    let (count, rest) = index(bytes)?;
    let count = count as usize;
    if rest.len() < count {
        return Err(Fault::Malformed);
    }
    let (front, rest) = rest.split_at(count);
    Ok((front, rest))
}

/// A name, lent, and the bytes after it (5.2.4).
#[tactic(auto, unfolding(crate::specs::steps::Listing::name_at))]
pub(crate) fn name(bytes: &[u8]) -> Result<(&str, &[u8]), Fault>
    ensures { Gives (λ x. (x.0.now, x.1.now)) result (name_at bytes.now) }
{
    let (text, rest) = counted(bytes)?;
    match str::from_utf8(text) {
        Ok(name) => Ok((name, rest)),
        Err(_) => Err(Fault::Malformed),
    }
}

/// A name of its own, and the bytes after it (5.2.4).
pub(crate) fn owned_name(alloc: Global, bytes: &[u8]) -> Result<(Text, &[u8]), Fault>
    ensures { Gives (λ x. (x.0, x.1.now)) result (name_at bytes.now) }
{
    let (name, rest) = name(bytes)?;
    Ok((Text::new(alloc, name)?, rest))
}

// So many parts. No room is taken for more than were read.
fn parts<P: Part>(alloc: Global, count: u32, bytes: &[u8]) -> Result<(Items<P>, &[u8]), Fault>
    ensures { Gives (λ x. (x.0, x.1.now)) result (times_at P.at count bytes.now) }
{
    let mut found = Vec::new(alloc);
    let mut rest = bytes;
    for _ in 0..count {
        let (part, after) = P::read(alloc, rest)?;
        found.push(part)?;
        rest = after;
    }
    Ok((Items::from_vec(found), rest))
}

/// A count and that many parts, and the bytes after them (5.1.3).
#[tactic(auto, unfolding(crate::specs::steps::Listing::list_at))]
pub(crate) fn list<P: Part>(alloc: Global, bytes: &[u8]) -> Result<(Items<P>, &[u8]), Fault>
    ensures { Gives (λ x. (x.0, x.1.now)) result (list_at P.at bytes.now) }
{
    let (count, rest) = index(bytes)?;
    parts(alloc, count, rest)
}

/// A count and that many indices, and the bytes after them.
pub(crate) fn indices(alloc: Global, bytes: &[u8]) -> Result<(U32s, &[u8]), Fault>
    ensures exact { Gives (λ x. (x.0, x.1.now)) result (list_at (unsigned_at 32) bytes.now) }
    ensures shorter { IfOk result (λ x. length x.1.now < length bytes.now) }
{
    list(alloc, bytes)
}

/// A part after which no bytes are left.
pub(crate) fn whole<T: Drop>(part: T, rest: &[u8]) -> Result<T, Fault>
    ensures { Gives (λ x. x) result (with_rest part rest.now) }
{
    match rest {
        [] => Ok(part),
        [_, ..] => Err(Fault::Malformed),
    }
}

/// A list that is all of the bytes.
pub(crate) fn all<P: Part>(alloc: Global, bytes: &[u8]) -> Result<Items<P>, Fault>
    ensures { Gives (λ x. x) result (used_up (list_at P.at bytes.now)) }
{
    let (found, rest) = list(alloc, bytes)?;
    whole(found, rest)
}
