//! Sets of numbers kept in 64-bit words: number i is held by bit i % 64 of word i / 64.

#![tactic(auto)]

#[cfg(test)]
mod tests;

ghost use Rattle.std.specs.Prelude.{◌≡◌, ◌==◌, not, position};
ghost use Rattle.bitset.specs.Bits.{holds, Inserted, Removed, NextHeld};

/// Whether i is in the set; false for a number past the end of the words.
pub fn contains(words: &[u64], i: usize) -> bool
    ensures { result ≡ holds words.now i }
{
    words
        .get(i / 64)
        .is_some_and(|word| (word >> (i % 64)) & 1 == 1)
}

/// Puts i into the set; a number past the end of the words changes nothing.
pub fn insert(words: &mut [u64], i: usize)
    ensures { Inserted words.old i words.new }
{
    // By index: of what is written through `get_mut` no proof learns anything.
    let word = i / 64;
    if word < words.len() {
        words[word] |= 1 << (i % 64);
    }
}

/// Takes i out of the set.
pub fn remove(words: &mut [u64], i: usize)
    ensures { Removed words.old i words.new }
{
    let word = i / 64;
    if word < words.len() {
        words[word] &= !(1 << (i % 64));
    }
}

// The index of the first word that is not 0.
fn first_filled(words: &[u64]) -> Option<usize>
    ensures { result ≡ position (λ word. not (word == 0)) words.now }
{
    words.iter().position(|word| *word != 0)
}

/// The least number from `from` on that is in the set; `None` where there is none.
#[inline(always)]
pub fn next(words: &[u64], from: usize) -> Option<usize>
    ensures { NextHeld words.now from result }
{
    let first = from / 64;
    let head = words.get(first)? >> (from % 64);
    if head != 0 {
        return Some(from + head.trailing_zeros() as usize);
    }
    let later = first + 1;
    let k = later + first_filled(&words[later..])?;
    // Bits of words past 2^58 stand for no number that a `usize` holds.
    let start = k.checked_mul(64)?;
    Some(start + words[k].trailing_zeros() as usize)
}
