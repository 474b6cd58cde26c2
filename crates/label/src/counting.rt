//! Labels that count: the search by them is maximum cardinality search.
ghost use Rattle.label.specs.Counts.{no_count, counted, compared_counts, CountStands};
ghost use Rattle.label.specs.Counted.{counting_lawful};

use crate::kind::{Kind, is_mark};
use plan::Place;
use std::cmp::Ordering;

/// The kind whose label is the number of marks.
#[derive(Clone, Copy)]
pub struct Counting;

/// A number of marks, 0 to 512.
#[derive(Clone, Copy, PartialEq, Eq, PartialOrd, Ord, Debug)]
pub struct Count(pub u16);

impl Kind for Counting {
    type Label = Count;

    ghost blank = { λ _. no_count };

    ghost raised = { λ _ a m. counted a m };

    ghost compared = { λ _ a b. compared_counts a b };

    ghost stands = { λ _ a s. CountStands a s };

    ghost lawful = { λ k. counting_lawful };

    fn empty(&self) -> Count {
        Count(0)
    }

    fn raise(&self, label: Count, mark: Place) -> Count {
        if is_mark(mark) && label.0 < 512 {
            Count(label.0 + 1)
        } else {
            label
        }
    }

    fn compare(&self, a: &Count, b: &Count) -> Ordering {
        a.cmp(b)
    }
}
