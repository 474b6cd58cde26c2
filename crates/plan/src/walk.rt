//! The neighbours of a junction, one after the other.
ghost use Rattle.std.specs.Prelude.{◌≡◌, ◌-◌};
ghost use Rattle.std.specs.Iterator.{at_most};
ghost use Rattle.plan.specs.Walks.{Steps};

use crate::number::Junction;
use crate::readable::ReadablePlan;

/// The neighbours of a junction in rising order, from those above `last` on.
#[derive(Drop)]
pub struct Walk<'a, P> {
    plan: &'a P,
    of: Junction,
    last: Junction,
}

/// All neighbours of v, rising. Each costs one question.
pub fn neighbours<P: ReadablePlan>(plan: &P, v: Junction) -> Walk<'_, P>
    ensures plan { result.plan.now ≡ plan.now }
    ensures of { result.of ≡ v }
    ensures last { result.last.0 ≡ 0 }
{
    neighbours_above(plan, v, Junction(0))
}

/// The neighbours of v above w, rising. Each costs one question.
pub fn neighbours_above<P: ReadablePlan>(plan: &P, v: Junction, w: Junction) -> Walk<'_, P>
    ensures plan { result.plan.now ≡ plan.now }
    ensures of { result.of ≡ v }
    ensures last { result.last ≡ w }
{
    Walk {
        plan,
        of: v,
        last: w,
    }
}

impl<P: ReadablePlan> Iterator for Walk<'_, P> {
    type Item = Junction;

    ghost next_gives = { λ s r t. Steps (P.meaning s.plan.now) s.of s.last r t.of t.last × (t.plan.now ≡ s.plan.now) };

    ghost remaining = { λ s. at_most (512 - s.last.0) };

    fn next(&mut self) -> Option<Junction> {
        let next = self.plan.next(self.of, self.last)?;
        self.last = next;
        Some(next)
    }
}
