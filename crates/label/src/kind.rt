//! A kind of label, as a value.
ghost use Rattle.std.specs.Prelude.{◌≡◌, ℕ, List};
ghost use Rattle.std.specs.declared.cmp.Ordering.{Ordering};
ghost use Rattle.label.specs.Laws.{Laws};
ghost use Rattle.label.specs.Marks as marks;

use plan::Place;
use std::cmp::Ordering;

/// A kind of label. A vertex's label grows by the marks that it is raised by, from the highest
/// down; a mark is a number from 1 to 512. `stands` says for which falling lists of marks a label
/// stands, and `lawful` what the search relies on.
pub trait Kind {
    /// The labels of the kind.
    type Label: Copy;

    // Three members and not a record of the three: each kind defines them apart, and a record would
    // be built anew in every clause over a kind.
    ghost blank: { Self → Self.Label };

    ghost raised: { Self → Self.Label → ℕ → Self.Label };

    ghost compared: { Self → Self.Label → Self.Label → Ordering };

    ghost stands: { Self → Self.Label → List ℕ → Type 0 };

    /// The label that no mark has raised.
    fn empty(&self) -> Self::Label
        ensures { result ≡ blank self.now };

    /// The label raised by a mark.
    fn raise(&self, label: Self::Label, mark: Place) -> Self::Label
        ensures { result ≡ raised self.now label mark.0 };

    /// How label a ranks against label b.
    fn compare(&self, a: &Self::Label, b: &Self::Label) -> Ordering
        ensures { result ≡ compared self.now a.now b.now };

    ghost lawful: { (k : Self) → Laws (blank k) (raised k) (compared k) (stands k) };
}

/// Whether a place is a mark, 1 to 512.
pub(crate) fn is_mark(place: Place) -> bool
    ensures { result ≡ marks.is_mark place.0 }
{
    (1..=512).contains(&place.0)
}
