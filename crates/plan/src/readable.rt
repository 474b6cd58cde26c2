//! The readable plan: four questions about a plan, none of which changes it.
ghost use Rattle.std.specs.Prelude.{◌≡◌, ◌≤◌};
ghost use Rattle.plan.specs.Plans.{Plan, Sound, NextNeighbour};

use crate::number::Junction;

/// A plan that can be read. `meaning` is the plan that the value stands for.
pub trait ReadablePlan {
    ghost meaning: { Self → Plan };

    /// n, the number of junctions, from 1 to 512.
    fn size(&self) -> u16
        ensures value { result ≡ (meaning self.now).size }
        ensures some { 1 ≤ result }
        ensures few { result ≤ 512 };

    /// Whether v is in service; false for a number that is no junction.
    fn serves(&self, v: Junction) -> bool
        ensures { result ≡ (meaning self.now).serves v.0 };

    /// Whether v and w are joined by a pipe; false where either is no junction.
    fn joined(&self, v: Junction, w: Junction) -> bool
        ensures { result ≡ (meaning self.now).joins v.0 w.0 };

    /// The lowest neighbour of v above w, where w may be 0; `None` where v has none.
    fn next(&self, v: Junction, w: Junction) -> Option<Junction>
        ensures { NextNeighbour (meaning self.now) v.0 w.0 result };

    ghost sound: { (p : Self) → Sound (meaning p) };
}
