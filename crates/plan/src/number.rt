//! Two sorts of number, kept apart by their types.
ghost use Rattle.std.specs.Prelude.{◌≡◌, ◌-◌, decimal, Some};
ghost use Rattle.plan.specs.Plans.{within};

use std::fmt;

/// The number of a junction. A plan of n junctions numbers them 1 to n; any other number, 0
/// among them, names no junction.
#[derive(Clone, Copy, PartialEq, Eq, PartialOrd, Ord, Debug)]
pub struct Junction(pub u16);

impl Junction {
    /// Whether this is a junction of a plan of n, 1 to n.
    pub fn is_within(self, n: u16) -> bool
        ensures { result ≡ within n self.0 }
    {
        1 <= self.0 && self.0 <= n
    }

    /// Where the junction stands in a table that begins with junction 1; 0 for junction 0 too.
    pub fn index(self) -> usize
        ensures { result ≡ self.0 - 1 }
    {
        usize::from(self.0.saturating_sub(1))
    }
}

/// A junction is shown by its number.
impl fmt::Display for Junction {
    ghost output = { λ j. Some (decimal j.0) };

    fn fmt<W: fmt::Write>(&self, f: &mut fmt::Formatter<W>) -> fmt::Result {
        write!(f, "{}", self.0)
    }
}

/// A place in an order of elimination, counted from 1: the junction at place 1 goes first.
#[derive(Clone, Copy, PartialEq, Eq, PartialOrd, Ord, Debug)]
pub struct Place(pub u16);
