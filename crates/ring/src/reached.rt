//! What a search has reached, and the ring that it meets, written down.
ghost use Rattle.std.specs.Prelude.{◌≡◌, ℕ, ◌+◌, ◌-◌, ◌*◌, ◌<◌, ◌≤◌, true, length, Some};
ghost use Rattle.ring.specs.Calls.{Lists};
ghost use Rattle.ring.specs.Reach.{queue, mark, back, Corner, Queue, Queue-prop, Meets};

use plan::{Junction, ReadablePlan};

/// The junctions that a search around v has reached: scratch holds them in its queue, `size` of
/// them, each with the mark of its forerunner.
#[derive(Drop)]
pub(crate) struct Reached<'a, P: ReadablePlan> {
    pub(crate) plan: &'a P,
    pub(crate) v: Junction,
    pub(crate) size: usize,
    pub(crate) scratch: &'a [u16],
    ghost room: { 2 * (P.meaning plan.now).size ≤ length scratch.now },
    ghost queue: { Queue (P.meaning plan.now) v.0 (queue scratch.now 0) size (queue scratch.now) (mark (P.meaning plan.now).size scratch.now) } by { Queue-prop (P.meaning plan.now) v.0 (queue scratch.now 0) size (queue scratch.now) (mark (P.meaning plan.now).size scratch.now) },
}

impl<P: ReadablePlan> Reached<'_, P> {
    /// The first index of the queue whose junction is joined to c.
    pub(crate) fn meeting(&self, c: Junction) -> Option<usize>
        ensures { Meets (P.meaning self.now.plan.now) c.0 self.now.size (queue self.now.scratch.now) result }
    {
        self.scratch[..self.size]
            .iter()
            .position(|u| self.plan.joined(Junction(*u), c))
    }

    /// Writes the ring v, a, .., u, c, where u stands at index `top` of the queue and a at its
    /// front: the path between is read back along the forerunners, and turned round. Answers the
    /// ring's length.
    pub(crate) fn list(&self, c: Junction, top: usize, ring: &mut [Junction]) -> u16
        requires room { (P.meaning self.now.plan.now).size ≤ length ring.old }
        requires corner { Corner (P.meaning self.now.plan.now) self.now.v.0 (queue self.now.scratch.now 0) c.0 }
        requires meets { Meets (P.meaning self.now.plan.now) c.0 self.now.size (queue self.now.scratch.now) (Some top) }
        ensures { Lists (P.meaning self.now.plan.now) ring.old result ring.new }
    {
        let depth = self.path_length(top);
        ring[0] = self.v;
        let path = &mut ring[1..depth + 2];
        let mut at = top;
        for entry in path.iter_mut() {
            *entry = Junction(self.scratch[at]);
            at = self.forerunner(at);
        }
        path.reverse();
        ring[depth + 2] = c;
        (depth + 3) as u16
    }

    // The queue index of the forerunner of the junction at index `at`.
    fn forerunner(&self, at: usize) -> usize
        requires { at < self.now.size }
        ensures { result ≡ mark (P.meaning self.now.plan.now).size self.now.scratch.now (queue self.now.scratch.now at) - 1 }
    {
        let n = usize::from(self.plan.size());
        let w = Junction(self.scratch[at]);
        usize::from(self.scratch[n + w.index()]) - 1
    }

    // How many pipes the path has, along the forerunners, from index `top` of the queue to its
    // front.
    fn path_length(&self, top: usize) -> usize
        requires { top < self.now.size }
        ensures bound { result ≤ top }
        ensures front { back (queue self.now.scratch.now) (mark (P.meaning self.now.plan.now).size self.now.scratch.now) top result ≡ 0 }
        ensures before { (j : ℕ) → j < result → 0 < back (queue self.now.scratch.now) (mark (P.meaning self.now.plan.now).size self.now.scratch.now) top j }
    {
        // From mark to mark: the indices on the path make no range.
        let mut at = top;
        let mut length = 0;
        while at > 0 {
            at = self.forerunner(at);
            length += 1;
        }
        length
    }
}
