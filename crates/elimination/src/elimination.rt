//! The fill of an order handed in.
ghost use Rattle.std.specs.Prelude.{◌≡◌, length, MatchResult};
ghost use Rattle.plan.specs.Orders.{numbers};
ghost use Rattle.plan.specs.Refusals.{heard};
ghost use Rattle.elimination.specs.Rows.{Fills, fill_verdict};

use crate::order::PlaceTable;
use crate::step::OrderedPlan;
use pairs::ROW;
use plan::{Junction, ReadablePlan, Refusal};

/// Eliminates the junctions in the order given: answers the number of fill pairs, and leaves
/// them in the rows, eight words to a junction. Bit b of word 8(v − 1) + k is set exactly where v
/// and 64k + b + 1 are a fill pair; words behind the 8n stay. Turned down by 9 where the list is
/// no order of the plan's junctions, then by 8 where there are under 8n words; every word then
/// stays.
pub fn fill<P: ReadablePlan>(plan: &P, order: &[Junction], rows: &mut [u64]) -> Result<u32, Refusal>
    ensures answer { heard result ≡ fill_verdict (P.meaning plan.now).size (numbers order.now) (length rows.old) }
    ensures written { MatchResult result (λ count. Fills (P.meaning plan.now) (numbers order.now) rows.old count rows.new) (λ _. rows.new ≡ rows.old) }
{
    let n = plan.size();
    let places = PlaceTable::of_order(n, order).ok_or(Refusal::NoOrder)?;
    if rows.len() < ROW * usize::from(n) {
        return Err(Refusal::ShortMemory);
    }
    pairs::clear(rows, n);
    let ordered = OrderedPlan { plan, places };
    let mut count = 0;
    for v in order {
        count += ordered.eliminate(rows, *v);
    }
    Ok(count)
}
