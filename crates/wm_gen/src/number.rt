// Numbers in their shortest spellings (LEB128).
ghost use Rattle.std.specs.Prelude.{◌≡◌, ◌++◌, ◌≤◌, ◌<◌, OnOk};
ghost use Rattle.wm_gen.specs.Shortest.{sevens, signed, unsigned};

use mc_nbt::Memory;

// Adds an unsigned number.
#[tactic(auto, unfolding(crate::specs::Shortest::unsigned))]
pub(crate) fn push_unsigned(bytes: &mut Vec<u8>, n: u64) -> Result<(), Memory>
    ensures { OnOk result (bytes.new.items ≡ bytes.old.items ++ unsigned n) }
{
    push_sevens(bytes, n, 128)
}

// Adds a number that isn't below 0, as a signed one.
#[tactic(auto, unfolding(crate::specs::Shortest::signed))]
pub(crate) fn push_signed(bytes: &mut Vec<u8>, n: u64) -> Result<(), Memory>
    ensures { OnOk result (bytes.new.items ≡ bytes.old.items ++ signed n) }
{
    push_sevens(bytes, n, 64)
}

// Adds a number, the lowest seven bits first. The last byte is below `last`.
fn push_sevens(bytes: &mut Vec<u8>, n: u64, last: u64) -> Result<(), Memory>
    requires some { 64 ≤ last }
    requires seven { last ≤ 128 }
    ensures { OnOk result (bytes.new.items ≡ bytes.old.items ++ sevens last 9 n) }
{
    let mut rest = n;
    while rest >= last {
        bytes.push((rest % 128) as u8 + 128)?;
        rest /= 128;
    }
    bytes.push(rest as u8)?;
    Ok(())
}
