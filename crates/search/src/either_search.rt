//! The search by one of two kinds.
ghost use Rattle.std.specs.Prelude.{◌≡◌};
ghost use Rattle.search.specs.Theorems.{ByFirst, BySecond};

use label::Kind;

/// An order by one of two kinds taken together is an order by that kind itself, and the other way
/// round. That is what the contract says. Answers 0.
pub fn either_searches_by_its_choice<A: Kind, B: Kind>(a: &A, b: &B) -> u8
    ensures value { result ≡ 0 }
    ensures first { ByFirst A.Kind.blank B.Kind.blank A.Kind.raised B.Kind.raised A.Kind.compared B.Kind.compared a.now }
    ensures second { BySecond A.Kind.blank B.Kind.blank A.Kind.raised B.Kind.raised A.Kind.compared B.Kind.compared b.now }
{
    0
}
