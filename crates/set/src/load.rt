//! Loading an image into a set.
ghost use Rattle.std.specs.Prelude.{◌≡◌};
ghost use Rattle.plan.specs.Refusals.{heard, after};
ghost use Rattle.set.specs.Kept.{ledger};
ghost use Rattle.set.specs.Ledgers.{clear, load_checks, with_loaded};

use crate::set::Set;
use image::{check, record_ends};
use plan::{Junction, ReadablePlan, Refusal, Register};

/// Whether the plan has every junction in service and no pipe. Costs at most two questions for
/// each junction: it stops at the first that is out of service or has a neighbour.
fn is_clear<P: ReadablePlan>(plan: &P) -> bool
    ensures { result ≡ clear (P.ReadablePlan.meaning plan.now) }
{
    // A loop: `all` over the junctions was tried, and the proof did not close.
    for v in 1..plan.size() + 1 {
        if !plan.serves(Junction(v)) || plan.next(Junction(v), Junction(0)).is_some() {
            return false;
        }
    }
    true
}

impl<R: Register> Set<R> {
    /// Joins every pair of an image. Turned down by 4, 5, 4 and 6 where the image is not sound (see
    /// `image::check`); then by 18 where it has another n, by 17 where the set has a pipe or a
    /// junction out of service, and by 14 where the spare is below its number of records; and then
    /// nothing is changed. Costs the check of the image, two questions for each junction and one
    /// join for each record.
    pub fn load(&mut self, image: &[u8]) -> Result<(), Refusal>
        ensures answer { heard result ≡ load_checks (ledger R.ReadablePlan.meaning R.Register.left self.old) image.now }
        ensures ledger { ledger R.ReadablePlan.meaning R.Register.left self.new ≡ after (heard result) (with_loaded (ledger R.ReadablePlan.meaning R.Register.left self.old) image.now) (ledger R.ReadablePlan.meaning R.Register.left self.old) }
    {
        let header = check(image)?;
        if header.n != self.layer.size() {
            return Err(Refusal::OtherSize);
        }
        if !is_clear(&self.layer) {
            return Err(Refusal::NotNew);
        }
        if self.layer.spare() < u32::from(header.records) {
            return Err(Refusal::NoSpare);
        }
        for i in 1..header.records + 1 {
            // A sound image has this record, and no check turns its pair down: the ends are two
            // junctions in service, no record before has the same, and the spare covers them all.
            if let Some((near, far)) = record_ends(image, i) {
                let _ = self.join(near, far);
            }
        }
        Ok(())
    }
}
