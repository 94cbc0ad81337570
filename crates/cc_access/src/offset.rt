// Offsets of words.
ghost use Rattle.std.specs.Prelude.{◌≡◌};
ghost use Rattle.cc_access.specs.Access as spec;

// None from this one on leads into the memory.
const NO_OFFSET: u32 = 16_777_216;

/// The offset of the word behind the one at an offset.
pub(crate) fn next_offset(offset: u32) -> u32
    ensures { result ≡ spec.next_offset offset }
{
    if offset >= NO_OFFSET {
        offset
    } else {
        offset + 4
    }
}
