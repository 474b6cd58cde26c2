//! The register: a readable plan that can be changed, one pipe at a time.
ghost use Rattle.std.specs.Prelude.{◌≡◌, ℕ};
ghost use Rattle.plan.specs.Refusals.{heard};
ghost use Rattle.plan.specs.Registers.{Joins, Cuts};

use crate::number::Junction;
use crate::readable::ReadablePlan;
use crate::refusal::Refusal;

/// A plan that can be changed. Its meaning has one more part than a plan's, the spare: how many
/// more pipes it can take.
pub trait Register: ReadablePlan {
    ghost left: { Self → ℕ };

    /// The spare.
    fn spare(&self) -> u32
        ensures { result ≡ left self.now };

    /// Adds the pipe v, w and lowers the spare by one. Turned down by 2, 3, 11, 12, 14, in this
    /// order, and then nothing is changed.
    fn join(&mut self, v: Junction, w: Junction) -> Result<(), Refusal>
        ensures { Joins (Self.ReadablePlan.meaning self.old) (left self.old) v.0 w.0 (heard result) (Self.ReadablePlan.meaning self.new) (left self.new) };

    /// Removes the pipe v, w and raises the spare by one. Turned down by 2, 3, 11, 13, in this
    /// order, and then nothing is changed.
    fn cut(&mut self, v: Junction, w: Junction) -> Result<(), Refusal>
        ensures { Cuts (Self.ReadablePlan.meaning self.old) (left self.old) v.0 w.0 (heard result) (Self.ReadablePlan.meaning self.new) (left self.new) };
}
