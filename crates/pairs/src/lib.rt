//! Tables of pairs of junctions, kept in words handed over: the row of junction v is words
//! 8(v − 1) to 8v − 1, and its bit w − 1 says whether the pair v, w is marked. A pair is kept in
//! the rows of both its junctions.

#![tactic(auto)]

#[cfg(test)]
mod tests;

ghost use Rattle.std.specs.Prelude.{◌≡◌, ℕ, ◌*◌, ◌<◌, ◌≤◌, ◌&&◌, slice_index, MatchBool};
ghost use Rattle.pairs.specs.Rows.{number, has_row, marked, Marks, Unmarks, NextIn};

use plan::Junction;

/// The words of one row, with a bit for each of 512 junctions.
pub const ROW: usize = 8;

// The number that stands for w in the row of v, counted from the start of the rows.
fn number(v: Junction, w: Junction) -> usize
    ensures { result ≡ number v.0 w.0 }
{
    512 * v.index() + w.index()
}

// Whether v is one of 1 to 512, and the words have its whole row.
fn has_row(words: &[u64], v: Junction) -> bool
    ensures { result ≡ has_row words.now v.0 }
{
    v.is_within(512) && ROW * usize::from(v.0) <= words.len()
}

/// Whether the pair v, w is marked in the row of v; false where v or w is 0, where w is above 512,
/// and where the words end before.
pub fn is_marked(words: &[u64], v: Junction, w: Junction) -> bool
    ensures { result ≡ marked words.now v.0 w.0 }
{
    if v.0 == 0 {
        return false;
    }
    w.is_within(512) && bitset::contains(words, number(v, w))
}

/// The lowest junction above w that is marked in the row of v; `None` where there is none.
#[inline(always)]
pub fn next_marked(words: &[u64], v: Junction, w: Junction) -> Option<Junction>
    ensures { NextIn (marked words.now v.0) w.0 result }
{
    // Looked for in the words up to the row's end, and not in the row by itself, which would cost a
    // second bound at each step of a walk.
    let start = 512 * v.index();
    let end = words.len().min(ROW * usize::from(v.0));
    let i = bitset::next(&words[..end], start + usize::from(w.0))?;
    Some(Junction((i - start) as u16 + 1))
}

/// Marks the pair v, w in the rows of both. Nothing is changed unless both are of 1 to 512 and the
/// words have both rows.
pub fn mark(words: &mut [u64], v: Junction, w: Junction)
    ensures { MatchBool (has_row words.old v.0 && has_row words.old w.0) (Marks words.old v.0 w.0 words.new) (words.new ≡ words.old) }
{
    if has_row(words, v) && has_row(words, w) {
        bitset::insert(words, number(v, w));
        bitset::insert(words, number(w, v));
    }
}

/// Takes the mark of the pair v, w out of the rows of both. Nothing is changed unless both are of 1
/// to 512 and the words have both rows.
pub fn unmark(words: &mut [u64], v: Junction, w: Junction)
    ensures { MatchBool (has_row words.old v.0 && has_row words.old w.0) (Unmarks words.old v.0 w.0 words.new) (words.new ≡ words.old) }
{
    if has_row(words, v) && has_row(words, w) {
        bitset::remove(words, number(v, w));
        bitset::remove(words, number(w, v));
    }
}

/// Clears the rows of junctions 1 to n, as far as the words go.
pub fn clear(words: &mut [u64], n: u16)
    ensures cleared { (k : ℕ) → k < 8 * n → slice_index words.new k ≡ 0 }
    ensures behind { (k : ℕ) → 8 * n ≤ k → slice_index words.new k ≡ slice_index words.old k }
{
    let end = words.len().min(ROW * usize::from(n));
    words[..end].fill(0);
}
