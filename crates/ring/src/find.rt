//! The search itself.
ghost use Rattle.std.specs.Prelude.{◌≡◌, [], ◌∷◌};
ghost use Rattle.plan.specs.Refusals.{heard, checked};
ghost use Rattle.ring.specs.Calls.{FindRing, short};

use crate::reach::reach;
use crate::reached::Reached;
use plan::{Junction, ReadablePlan, Refusal, neighbours_above};

/// Writes a ring of the plan to the front of `ring`, listed from its lowest junction towards the
/// lower of that junction's two neighbours in it, and answers its length; 0 where the plan has no
/// ring. `ring` has n entries at least and `scratch` 2n, or the call is turned down by 8 and changes
/// nothing.
pub fn find_ring<P: ReadablePlan>(
    plan: &P,
    ring: &mut [Junction],
    scratch: &mut [u16],
) -> Result<u16, Refusal>
    ensures verdict { heard result ≡ checked ((short (P.meaning plan.now).size ring.old scratch.old, 8) ∷ []) }
    ensures left { FindRing (P.meaning plan.now) result ring.old scratch.old ring.new scratch.new }
{
    let n = plan.size();
    if ring.len() < usize::from(n) || scratch.len() < 2 * usize::from(n) {
        return Err(Refusal::ShortMemory);
    }
    let mut found = None;
    'search: for i in 0..n {
        let v = Junction(i + 1);
        for a in neighbours_above(plan, v, v) {
            let size = reach(plan, v, a, scratch);
            let reached = Reached {
                plan,
                v,
                size,
                scratch,
            };
            for c in neighbours_above(plan, v, a) {
                if plan.joined(a, c) {
                    continue;
                }
                if let Some(top) = reached.meeting(c) {
                    found = Some(reached.list(c, top, ring));
                    break 'search;
                }
            }
        }
    }
    Ok(found.unwrap_or(0))
}
