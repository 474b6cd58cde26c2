//! Labels that keep every mark: the search by them is lexicographic breadth-first search.
ghost use Rattle.std.specs.Prelude.{◌≡◌, ℕ, ◌&&◌, ◌||◌, ◌==◌};
ghost use Rattle.std.specs.Ordering.{MatchOrdering};
ghost use Rattle.label.specs.Marks.{is_mark};
ghost use Rattle.label.specs.Sets.{no_marks, with_mark, marked, compared_sets, Exceeds, SetStands};
ghost use Rattle.label.specs.LexLaws.{lexicographic_lawful};

use crate::kind::{Kind, is_mark};
use plan::Place;
use std::cmp::Ordering;

/// The kind whose label is the set of its marks; of two the greater has the highest mark in which
/// they differ.
#[derive(Clone, Copy)]
pub struct Lexicographic;

/// A set of marks: mark m is bit (m - 1) % 64 of word (m - 1) / 64.
#[derive(Clone, Copy)]
pub struct MarkSet {
    words: [u64; 8],
}

impl MarkSet {
    /// How the set ranks against another: of two the greater has the highest mark in which they
    /// differ.
    pub fn compare(&self, other: &MarkSet) -> Ordering
        ensures value { result ≡ compared_sets self.now other.now }
        ensures greater { MatchOrdering result (Exceeds (marked other.now) (marked self.now)) ((m : ℕ) → marked self.now m ≡ marked other.now m) (Exceeds (marked self.now) (marked other.now)) }
    {
        // By index: a proof knows that a word fits 64 bits, which `greater` rests on, where the word is
        // read here, and not where `iter().rev().cmp(..)` reads it.
        for k in (0..8).rev() {
            let mine = self.words[k];
            let theirs = other.words[k];
            if mine < theirs {
                return Ordering::Less;
            }
            if theirs < mine {
                return Ordering::Greater;
            }
        }
        Ordering::Equal
    }
}

impl Kind for Lexicographic {
    type Label = MarkSet;

    ghost blank = { λ _. no_marks };

    ghost raised = { λ _ a m. with_mark a m };

    ghost compared = { λ _ a b. compared_sets a b };

    ghost stands = { λ _ a s. SetStands a s };

    ghost lawful = { λ k. lexicographic_lawful };

    fn empty(&self) -> MarkSet {
        MarkSet { words: [0; 8] }
    }

    fn raise(&self, label: MarkSet, mark: Place) -> MarkSet
        ensures value { result ≡ with_mark label mark.0 }
        ensures marks { (m : ℕ) → marked result m ≡ (marked label m || (is_mark mark.0 && mark.0 == m)) }
    {
        let mut words = label.words;
        if is_mark(mark) {
            let i = usize::from(mark.0 - 1);
            words[i / 64] |= 1 << (i % 64);
        }
        MarkSet { words }
    }

    fn compare(&self, a: &MarkSet, b: &MarkSet) -> Ordering {
        a.compare(b)
    }
}
