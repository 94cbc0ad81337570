// Keys of compounds, and what may begin one.
ghost use Rattle.std.specs.Prelude.{◌≡◌, ◌≤◌, ◌-◌, ◌++◌, length, option_map};
ghost use Rattle.std.specs.List.{list_all};
ghost use Rattle.mc_nbt.specs.Word as word;
ghost use Rattle.mc_nbt.specs.steps.Reading as reading;
ghost use Rattle.mc_nbt.specs.steps.Reading.{greatest};

use crate::byte::is_name_byte;

// The number of bytes that a key may have.
const MAX_LEN: usize = 32;

fn are_name_bytes(w: &[u8]) -> bool
    ensures { result ≡ list_all word.is_name_byte w.now }
{
    w.iter().all(|c| is_name_byte(*c))
}

/// Whether the bytes are a key of a compound: 1 to 32 letters, digits and `_`.
#[tactic(auto, unfolding(crate::specs::Word::is_key))]
pub fn is_key(bytes: &[u8]) -> bool
    ensures { result ≡ word.is_key bytes.now }
{
    are_name_bytes(bytes) && !bytes.is_empty() && bytes.len() <= MAX_LEN
}

pub(crate) fn comes_after(last: Option<&[u8]>, key: &[u8]) -> bool
    ensures { result ≡ reading.comes_after (option_map (λ l. l.now) last.entry) key.now }
{
    match last {
        None => true,
        Some(l) => l.cmp(key).is_lt(),
    }
}

// The bytes, and behind them as many `z`, the greatest byte of a name, as a key has room for.
fn padded(key: &[u8]) -> [u8; MAX_LEN]
    requires { length key.now ≤ 32 }
    ensures { result ≡ key.now ++ greatest (32 - length key.now) }
{
    let mut text = [b'z'; MAX_LEN];
    text[..key.len()].copy_from_slice(key);
    text
}

// Whether a key that comes after the last one may begin with these bytes.
pub(crate) fn begins_key(last: Option<&[u8]>, key: &[u8]) -> bool
    ensures { result ≡ reading.begins_key (option_map (λ l. l.now) last.entry) key.now }
{
    are_name_bytes(key) && key.len() <= MAX_LEN && comes_after(last, &padded(key))
}
