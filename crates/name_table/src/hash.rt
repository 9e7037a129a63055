ghost use Rattle.std.specs.Prelude.{◌≡◌};
ghost use Rattle.name_table.specs.Hash.{stir, short_word as packed, last_word as last, hash_of as hash};

use crate::key::NameHash;

/// An odd number with its bits well spread.
const FACTOR: u64 = 0x9E37_79B9_7F4A_7C15;

/// What a further word makes of a state. The upper half of the product, which all bits have moved,
/// is mixed into the lower.
#[inline]
#[tactic(auto, unfolding(crate::specs::Hash::stir))]
fn stirred(state: u64, word: u64) -> u64
    ensures { result ≡ stir state word }
{
    let product = (state ^ word).wrapping_mul(FACTOR);
    product ^ (product >> 32)
}

/// Fewer than eight bytes as one word.
#[inline]
fn short_word(bytes: &[u8]) -> u64
    ensures { result ≡ packed bytes.now }
{
    let mut word = 0;
    for byte in bytes {
        word = (word << 8) | u64::from(*byte);
    }
    word
}

/// The last eight bytes as a word, or all where there are fewer.
#[inline]
fn last_word(bytes: &[u8]) -> u64
    ensures { result ≡ last bytes.now }
{
    match bytes.split_last_chunk::<8>() {
        Some((_, word)) => u64::from_le_bytes(*word),
        None => short_word(bytes),
    }
}

/// The hash of a name, eight bytes at a time. Names that differ may share it: no answer of a table
/// rests on their being few.
#[inline]
#[tactic(auto, unfolding(crate::specs::Hash::hash_of))]
pub(crate) fn hash_of(name: &str) -> NameHash
    ensures { result.bits ≡ hash name.now }
{
    let bytes = name.as_bytes();
    let (words, _) = bytes.as_chunks::<8>();
    let mut state = bytes.len() as u64;
    for word in words {
        state = stirred(state, u64::from_le_bytes(*word));
    }
    NameHash {
        bits: stirred(state, last_word(bytes)),
    }
}
