//! Who makes the register of a visit.
ghost use Rattle.std.specs.Prelude.{ℕ, Bool, Result};
ghost use Rattle.plan.specs.declared.turned_down.TurnedDown.{TurnedDown};
ghost use Rattle.visit.specs.Visits.{Makes};

use plan::{Register, TurnedDown};

/// Makes the register over which a visit runs, in memory that it holds. `makes` says what may come
/// of a call of `make`; a maker that promises nothing says that anything may.
pub trait Maker: Sized {
    type Made: Register + Drop;

    ghost makes: { Self → ℕ → Result Self.Made (TurnedDown Self) → Type 0 };

    /// A new register of n junctions, or the refusal with the maker given back.
    fn make(self, n: u16) -> Result<Self::Made, TurnedDown<Self>>
        ensures { makes self n result };
}

/// A maker whose registers are made as it states: `spare` is the spare of a new register of n
/// junctions, and `full` says whether the memory is too short for one. It turns a call down by 1
/// where n is not 1 to 512, then by 8 where the memory is too short, and is then given back as it was.
pub trait StatedMaker: Maker {
    ghost spare: { Self → ℕ → ℕ };

    ghost full: { Self → ℕ → Bool };

    ghost stated: { Makes Self.Maker.makes Self.Made.ReadablePlan.meaning Self.Made.Register.left spare full };
}
