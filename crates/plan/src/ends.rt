//! The two ends of a pipe.
ghost use Rattle.std.specs.Prelude.{◌≡◌, not, ◌&&◌, ◌==◌, [], ◌∷◌};
ghost use Rattle.plan.specs.Plans.{within};
ghost use Rattle.plan.specs.Refusals.{heard, checked};

use crate::number::Junction;
use crate::refusal::Refusal;

/// What every call on a pair of junctions asks first, in a plan of n: turned down by 2 where v or w
/// is no junction, then by 3 where both are one.
pub fn check_ends(n: u16, v: Junction, w: Junction) -> Result<(), Refusal>
    ensures { heard result ≡ checked ((not (within n v.0 && within n w.0), 2) ∷ ((v.0 == w.0), 3) ∷ []) }
{
    if !v.is_within(n) || !w.is_within(n) {
        return Err(Refusal::NoJunction);
    }
    if v == w {
        return Err(Refusal::OneJunction);
    }
    Ok(())
}
