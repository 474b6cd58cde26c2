//! A list of calls, carried out or turned down one after the other.
ghost use Rattle.std.specs.Prelude.{◌≡◌, ◌*◌, true, map};
ghost use Rattle.plan.specs.Memory.{KeptFrom};
ghost use Rattle.order.specs.Reports.{short};
ghost use Rattle.set.specs.Kept.{ledger};
ghost use Rattle.set.specs.Ledgers.{New, started};
ghost use Rattle.calls.specs.Deeds.{deed, next, idle, all_idle};
ghost use Rattle.calls.specs.Heard.{heard_with, lists_of};
ghost use Rattle.calls.specs.Runs.{Answered, RanOrFailed};

use crate::answer::{Answer, Outcome};
use crate::call::Call;
use crate::listener::{Listener, Lists};
use label::Kind;
use plan::{Junction, Register};
use set::Set;

/// Makes the calls of a list on a set, in turn, and tells the listener each answer. An order needs n
/// entries for the places, the ring and the labels, 8n words of rows and 2n entries of scratch;
/// without them it is turned down by 8. Where the listener fails, the calls behind are not made.
/// Labels and scratch are as before where no order is carried out.
// Five slices of memory, for the reason that stands at `order::order`.
pub fn run<R: Register, K: Kind, L: Listener>(
    set: &mut Set<R>,
    calls: &[Call<'_, K>],
    listener: &mut L,
    places: &mut [Junction],
    ring: &mut [Junction],
    rows: &mut [u64],
    labels: &mut [K::Label],
    scratch: &mut [u16],
) -> Result<(), L::Error>
    ensures new { New (ledger R.ReadablePlan.meaning R.Register.left set.old) → ledger R.ReadablePlan.meaning R.Register.left set.old ≡ started (R.ReadablePlan.meaning set.old.layer.below).size (R.ReadablePlan.meaning set.old.layer.below).serves (R.Register.left set.old.layer.below) }
    ensures kept { RanOrFailed K.Kind.blank K.Kind.raised K.Kind.compared (ledger R.ReadablePlan.meaning R.Register.left set.old) (lists_of places.old ring.old rows.old) (map (deed (short (ledger R.ReadablePlan.meaning R.Register.left set.old).base.size places.old ring.old rows.old labels.old scratch.old)) calls.now) (ledger R.ReadablePlan.meaning R.Register.left set.new) (lists_of places.new ring.new rows.new) (L.Listener.log listener.old) (L.Listener.log listener.new) result }
    ensures labels { KeptFrom (ledger R.ReadablePlan.meaning R.Register.left set.old).base.size labels.old labels.new }
    ensures scratch { KeptFrom (2 * (ledger R.ReadablePlan.meaning R.Register.left set.old).base.size) scratch.old scratch.new }
    ensures idle { all_idle (map (deed (short (ledger R.ReadablePlan.meaning R.Register.left set.old).base.size places.old ring.old rows.old labels.old scratch.old)) calls.now) ≡ true → (labels.new ≡ labels.old) × (scratch.new ≡ scratch.old) }
{
    for call in calls {
        let answer = carry_out(set, call, places, ring, rows, labels, scratch);
        let lists = Lists { places, ring, rows };
        listener.hear(answer, lists)?;
    }
    Ok(())
}

// Makes one call on a set.
fn carry_out<R: Register, K: Kind>(
    set: &mut Set<R>,
    call: &Call<'_, K>,
    places: &mut [Junction],
    ring: &mut [Junction],
    rows: &mut [u64],
    labels: &mut [K::Label],
    scratch: &mut [u16],
) -> Answer
    ensures answered { Answered K.Kind.blank K.Kind.raised K.Kind.compared (ledger R.ReadablePlan.meaning R.Register.left set.old) (lists_of places.old ring.old rows.old) (deed (short (ledger R.ReadablePlan.meaning R.Register.left set.old).base.size places.old ring.old rows.old labels.old scratch.old) call.now) (heard_with result places.new ring.new rows.new) }
    ensures ledger { ledger R.ReadablePlan.meaning R.Register.left set.new ≡ next (ledger R.ReadablePlan.meaning R.Register.left set.old) (deed (short (ledger R.ReadablePlan.meaning R.Register.left set.old).base.size places.old ring.old rows.old labels.old scratch.old) call.now) }
    ensures labels { KeptFrom (ledger R.ReadablePlan.meaning R.Register.left set.old).base.size labels.old labels.new }
    ensures scratch { KeptFrom (2 * (ledger R.ReadablePlan.meaning R.Register.left set.old).base.size) scratch.old scratch.new }
    ensures idle { idle (deed (short (ledger R.ReadablePlan.meaning R.Register.left set.old).base.size places.old ring.old rows.old labels.old scratch.old) call.now) ≡ true → (labels.new ≡ labels.old) × (scratch.new ≡ scratch.old) }
{
    match call {
        Call::Load(image) => set.load(image)?,
        Call::Join(v, w) => set.join(*v, *w)?,
        Call::Cut(v, w) => set.cut(*v, *w)?,
        Call::Shut(v) => set.shut(*v)?,
        Call::Open(v) => set.open(*v)?,
        Call::Order(kind) => {
            let report = set.order(kind, places, ring, rows, labels, scratch)?;
            return Ok(Outcome::Ordered(set.size(), report));
        }
    }
    Ok(Outcome::Done)
}
