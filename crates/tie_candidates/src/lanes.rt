//! Values in 64 runs: one bit of a word for each.

/// By what a word is spread in a hash.
const SPREAD: u64 = 0x9E37_79B9_7F4A_7C15;

/// The word at the place; 0 where there is none.
pub(crate) fn word_at(words: &[u64], at: usize) -> u64 {
    words.get(at).copied().unwrap_or(0)
}

/// Puts the word at the place, if there is one.
pub(crate) fn put_word(words: &mut [u64], at: usize, word: u64) {
    if at < words.len() {
        words[at] = word;
    }
}

/// The bit in all runs.
pub(crate) fn in_all(bit: bool) -> u64 {
    if bit { u64::MAX } else { 0 }
}

/// A hash of the word.
pub(crate) fn hashed(word: u64) -> u32 {
    ((word ^ (word >> 32)).wrapping_mul(SPREAD) >> 32) as u32
}
