//! Theorems about the fill, each the contract of a function that only states it.
ghost use Rattle.std.specs.Prelude.{◌≡◌};
ghost use Rattle.elimination.specs.Laws.{NoFillLaw, PathLaw, WorkedPlans};

/// An order has no fill, and `fill` answers 0, exactly where it is perfect: for every junction, its
/// neighbours at later places are joined pairwise. Answers 1.
pub fn no_fill_law() -> u8
    ensures law { NoFillLaw }
    ensures one { result ≡ 1 }
{
    1
}

/// Two junctions are joined by a pipe or by fill exactly where a path of pipes joins them whose
/// inner junctions all have places below both ends'. Answers 2.
pub fn path_law() -> u8
    ensures law { PathLaw }
    ensures two { result ≡ 2 }
{
    2
}

/// Small plans with their fill, worked out from the definitions alone. Answers 3.
pub fn worked_plans() -> u8
    ensures plans { WorkedPlans }
    ensures three { result ≡ 3 }
{
    3
}
