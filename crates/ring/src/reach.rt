//! Breadth-first search around a junction.
//!
//! Scratch holds two stretches of n numbers: the queue of reached junctions in the order in which
//! they were reached, and for each junction 0, or one more than the queue index of its forerunner,
//! the first junction of the queue that is joined to it. A mark is a number and no `Option`, since
//! memory is handed over as numbers; that it is long enough is asked of each step, for the same reason.
ghost use Rattle.std.specs.Prelude.{◌≡◌, ℕ, ◌+◌, ◌*◌, ◌<◌, ◌≤◌, true, length, ◌≢◌};
ghost use Rattle.plan.specs.Memory.{KeptFrom};
ghost use Rattle.ring.specs.Reach.{queue, mark, Queue, Spread};

use plan::{Junction, ReadablePlan, neighbours_above};

// Reaches from a, a neighbour of v above it, all that can be reached through junctions above v
// that are not joined to v. Answers how many junctions the queue holds, a first.
pub(crate) fn reach<P: ReadablePlan>(
    plan: &P,
    v: Junction,
    a: Junction,
    scratch: &mut [u16],
) -> usize
    requires room { 2 * (P.meaning plan.now).size ≤ length scratch.old }
    requires above { (v.0 < a.0) × ((P.meaning plan.now).joins v.0 a.0 ≡ true) }
    ensures queue { Queue (P.meaning plan.now) v.0 a.0 result (queue scratch.new) (mark (P.meaning plan.now).size scratch.new) }
    ensures spread { Spread (P.meaning plan.now) v.0 result (queue scratch.new) (mark (P.meaning plan.now).size scratch.new) }
    ensures behind { KeptFrom (2 * (P.meaning plan.now).size) scratch.old scratch.new }
{
    let n = usize::from(plan.size());
    start(n, a, scratch);
    // By index, since the queue grows while it is read.
    let mut size = 1;
    let mut head = 0;
    while head < size {
        size = spread(plan, v, head, size, scratch);
        head += 1;
    }
    size
}

// Clears the marks, and begins the queue with a.
fn start(n: usize, a: Junction, scratch: &mut [u16])
    requires room { (n ≤ 512) × (2 * n ≤ length scratch.old) }
    requires inside { (1 ≤ a.0) × (a.0 ≤ n) }
    ensures first { queue scratch.new 0 ≡ a.0 }
    ensures marked { mark n scratch.new a.0 ≡ 1 }
    ensures others { (w : ℕ) → 1 ≤ w → w ≤ n → (w ≢ a.0) → mark n scratch.new w ≡ 0 }
    ensures behind { KeptFrom (2 * n) scratch.old scratch.new }
{
    scratch[n..2 * n].fill(0);
    scratch[0] = a.0;
    scratch[n + a.index()] = 1;
}

// Adds to the queue what the junction at `head` of it is joined to and was not reached before.
fn spread<P: ReadablePlan>(
    plan: &P,
    v: Junction,
    head: usize,
    size: usize,
    scratch: &mut [u16],
) -> usize
    requires room { 2 * (P.meaning plan.now).size ≤ length scratch.old }
    requires inside { head < size }
    requires queue { Queue (P.meaning plan.now) v.0 (queue scratch.old 0) size (queue scratch.old) (mark (P.meaning plan.now).size scratch.old) }
    requires spread { Spread (P.meaning plan.now) v.0 head (queue scratch.old) (mark (P.meaning plan.now).size scratch.old) }
    ensures grows { size ≤ result }
    ensures queue { Queue (P.meaning plan.now) v.0 (queue scratch.old 0) result (queue scratch.new) (mark (P.meaning plan.now).size scratch.new) }
    ensures spread { Spread (P.meaning plan.now) v.0 (head + 1) (queue scratch.new) (mark (P.meaning plan.now).size scratch.new) }
    ensures behind { KeptFrom (2 * (P.meaning plan.now).size) scratch.old scratch.new }
{
    let n = usize::from(plan.size());
    let u = Junction(scratch[head]);
    let mut count = size;
    for w in neighbours_above(plan, u, v) {
        let seat = n + w.index();
        if scratch[seat] == 0 && !plan.joined(v, w) {
            scratch[count] = w.0;
            scratch[seat] = head as u16 + 1;
            count += 1;
        }
    }
    count
}
