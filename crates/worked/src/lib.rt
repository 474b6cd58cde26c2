//! Small plans worked through to the end, all together: what the search, the fill, a join and an
//! image come to on them follows from the definitions alone.

#![tactic(auto)]

ghost use Rattle.std.specs.Prelude.{◌≡◌};
ghost use Rattle.worked.specs.Worked.{NotSearched, WorkedPlans};

/// The worked plans. That all of this holds is what the contract says; it answers 0.
///
/// - One junction: by either kind of label order 1, no fill, 0 cells.
/// - The ring 1 2 3 4: by lexicographic label order 3 4 2 1 with the one fill pair 2 4, by counting
///   label order 4 3 2 1 with the one fill pair 1 3; 5 cells either way.
/// - The ring 1 2 3 4 5: by lexicographic label order 4 3 5 2 1 with the fill pairs 3 5 and 2 5 and
///   no other, 7 cells.
/// - The pipes 1 2 and 2 3: the order 2 1 3 handed in has the one fill pair 1 3; the list 1 1 3 is
///   turned down by 9.
/// - A join on a joined pair of any plan, with spare 0, is turned down by 12.
/// - The ring 1 2 3 4 as an image has 40 bytes and the heads 1, 3, 4, 0. With any byte more it is
///   turned down by 4; with r = 5, 46 bytes and a fifth record in no chain, by 6 with junction 0.
pub fn worked_plans() -> u8
    ensures value { result ≡ 0 }
    ensures worked { WorkedPlans }
{
    0
}

/// The junctions by number are not what the search finds in the ring 1 2 3 4, nor are they behind
/// the first that it takes. That is what the contract says; it answers 0.
pub fn numbers_are_no_search() -> u8
    ensures value { result ≡ 0 }
    ensures searched { NotSearched }
{
    0
}
