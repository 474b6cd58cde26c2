//! An order by the rule is the only one.
ghost use Rattle.std.specs.Prelude.{◌≡◌};
ghost use Rattle.search.specs.Theorems.{AtMostOne};

use label::Kind;

/// By any kind of label a plan has at most one order: that is what the contract says. Answers 0.
pub fn at_most_one_order<K: Kind>(kind: &K) -> u8
    ensures value { result ≡ 0 }
    ensures unique { AtMostOne (K.Kind.blank kind.now) (K.Kind.raised kind.now) (K.Kind.compared kind.now) }
{
    0
}
