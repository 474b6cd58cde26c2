//! What the laws of labels give of an order by the rule.
ghost use Rattle.std.specs.Prelude.{◌≡◌};
ghost use Rattle.search.specs.Theorems.{LateNeighbours};

use label::Kind;

/// In an order of a sound plan by any kind of label: of places a below b below c, if the junction
/// of c is joined to that of a and not to that of b, then a place above b is joined to b and not
/// to a. That is what the contract says. Answers 0.
pub fn late_neighbours<K: Kind>(kind: &K) -> u8
    ensures value { result ≡ 0 }
    ensures late { LateNeighbours (K.Kind.blank kind.now) (K.Kind.raised kind.now) (K.Kind.compared kind.now) }
{
    0
}
