//! Counting the pipes of a plan.
ghost use Rattle.std.specs.Prelude.{◌≡◌, suc, ◌-◌, ◌≤◌};
ghost use Rattle.plan.specs.Plans.{count, pairs};

use crate::number::Junction;
use crate::readable::ReadablePlan;
use crate::walk::neighbours;

// How many neighbours of w have a number below w.
fn neighbours_below<P: ReadablePlan>(plan: &P, w: Junction) -> u32
    requires { (1 ≤ w.0) × (w.0 ≤ 512) }
    ensures { result ≡ count (λ v. (P.meaning plan.now).joins (suc v) w.0) (w.0 - 1) }
{
    // A loop: of `take_while` with `count` a proof would have to tell how many items are taken.
    let mut found = 0;
    for v in neighbours(plan, w) {
        if v > w {
            break;
        }
        found += 1;
    }
    found
}

/// How many pipes the plan has between junctions in service.
pub fn pipes<P: ReadablePlan>(plan: &P) -> u32
    ensures { result ≡ pairs (P.meaning plan.now).joins (P.meaning plan.now).size }
{
    // A loop: `map` and `sum` over the range were tried, and the proof did not close.
    let mut found = 0;
    for w in 1..=plan.size() {
        found += neighbours_below(plan, Junction(w));
    }
    found
}
