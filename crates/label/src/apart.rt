//! What the laws of labels rule out.
ghost use Rattle.std.specs.Prelude.{◌≡◌};
ghost use Rattle.std.specs.declared.cmp.Ordering.TheVariants.{Less};
ghost use Rattle.label.specs.Laws.{AllEqual};

use crate::kind::Kind;
use plan::Place;
use std::cmp::Ordering;

/// How the empty label ranks against the one that mark 1 has raised: it is less, for every kind.
/// So no kind takes all its labels for equal.
pub fn empty_against_raised<K: Kind>(kind: &K) -> Ordering
    ensures less { result ≡ Less }
    ensures apart { AllEqual (K.Kind.compared kind.now) → ⊥ }
{
    let empty = kind.empty();
    let raised = kind.raise(empty, Place(1));
    kind.compare(&empty, &raised)
}
