//! The order call.
ghost use Rattle.std.specs.Prelude.{◌≡◌, [], ◌∷◌};
ghost use Rattle.plan.specs.Refusals.{heard, checked};
ghost use Rattle.order.specs.Reports.{OrderCall, short};

use crate::report::Report;
use elimination::{fill, pipes};
use label::Kind;
use plan::{Junction, ReadablePlan, Refusal};
use ring::find_ring;
use search::search;

/// Finds the order in which the junctions of a plan are eliminated, by a kind of label: writes the
/// junctions of places 1 to n, the rows of its fill and, where it has fill, a ring of the plan.
/// Needs n entries for the places, the ring and the labels, 8n words of rows and 2n entries of
/// scratch, or it is turned down by 8 and changes nothing.
// Five slices and no struct of them: a call that is lent two `&mut` fields of one struct gets no
// proof from the borrow checker, and the memory is the caller's, so no `Vec` can hold it.
pub fn order<P: ReadablePlan, K: Kind>(
    plan: &P,
    kind: &K,
    places: &mut [Junction],
    ring: &mut [Junction],
    rows: &mut [u64],
    labels: &mut [K::Label],
    scratch: &mut [u16],
) -> Result<Report, Refusal>
    ensures verdict { heard result ≡ checked ((short (P.ReadablePlan.meaning plan.now).size places.old ring.old rows.old labels.old scratch.old, 8) ∷ []) }
    ensures left { OrderCall (K.Kind.blank kind.now) (K.Kind.raised kind.now) (K.Kind.compared kind.now) (P.ReadablePlan.meaning plan.now) result places.old ring.old rows.old labels.old scratch.old places.new ring.new rows.new labels.new scratch.new }
{
    let n = usize::from(plan.size());
    if places.len() < n || ring.len() < n || rows.len() < 8 * n {
        return Err(Refusal::ShortMemory);
    }
    if labels.len() < n || scratch.len() < 2 * n {
        return Err(Refusal::ShortMemory);
    }
    search(plan, kind, places, labels, scratch)?;
    let fill = fill(plan, &places[0..n], rows)?;
    let length = if fill > 0 {
        find_ring(plan, ring, scratch)?
    } else {
        0
    };
    let cells = pipes(plan) + fill;
    Ok(Report {
        fill,
        cells,
        ring: length,
    })
}
