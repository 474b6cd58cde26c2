//! One step of the elimination: of a junction's neighbours at later places the earliest takes
//! over the others. The fill that this leaves out comes when that neighbour is eliminated.
ghost use Rattle.std.specs.Prelude.{◌≡◌, ◌-◌, ◌*◌, ◌<◌, ◌≤◌, length};
ghost use Rattle.plan.specs.Plans.{NextNeighbour};
ghost use Rattle.pairs.specs.Rows.{NextIn};
ghost use Rattle.elimination.specs.Steps.{known, at, Table, Earliest, Joins, Adds, TakesOver, Eliminates};

use crate::order::PlaceTable;
use plan::{Junction, ReadablePlan};

/// A plan, with the places of its junctions in the order in which they are eliminated.
#[derive(Drop)]
pub(crate) struct OrderedPlan<'a, P> {
    pub(crate) plan: &'a P,
    pub(crate) places: PlaceTable,
}

// That v is a junction of the plan is asked of each call: a junction alone is a number, and a type that
// ties it to the plan would be no plainer.
impl<P: ReadablePlan> OrderedPlan<'_, P> {
    // The lowest junction above w that is joined to v by a pipe or by the fill found so far, where
    // `pipe` is the lowest that is by a pipe.
    #[inline(always)]
    fn next_known(
        &self,
        rows: &[u64],
        v: Junction,
        w: Junction,
        pipe: Option<Junction>,
    ) -> Option<Junction>
        requires inside { v.0 ≤ (P.meaning self.now.plan.now).size }
        requires pipe { NextNeighbour (P.meaning self.now.plan.now) v.0 w.0 pipe }
        ensures { NextIn (known (P.meaning self.now.plan.now) rows.now v.0) w.0 result }
    {
        match (pipe, pairs::next_marked(rows, v, w)) {
            (Some(a), Some(b)) => Some(a.min(b)),
            (Some(a), None) => Some(a),
            (None, b) => b,
        }
    }

    // The lowest junction above u that is joined to v by a pipe, where `pipe` is the lowest from u on.
    // So a walk asks the plan once for each pipe, however much fill lies between.
    fn pipe_above(&self, v: Junction, u: Junction, pipe: Option<Junction>) -> Option<Junction>
        requires { NextNeighbour (P.meaning self.now.plan.now) v.0 (u.0 - 1) pipe }
        ensures { NextNeighbour (P.meaning self.now.plan.now) v.0 u.0 result }
    {
        if pipe == Some(u) {
            return self.plan.next(v, u);
        }
        pipe
    }

    // The earliest placed of v's neighbours at later places.
    fn earliest(&self, rows: &[u64], v: Junction) -> Option<Junction>
        requires { v.0 ≤ (P.meaning self.now.plan.now).size }
        ensures { Earliest (known (P.meaning self.now.plan.now) rows.now) (at self.now.places.places) v.0 result }
    {
        // By a cursor, as in `take_over`: an iterator for this loop alone would be no plainer.
        let mut best = None;
        let mut last = Junction(0);
        let mut pipe = self.plan.next(v, last);
        while let Some(u) = self.next_known(rows, v, last, pipe) {
            if self.places.place_of(v) < self.places.place_of(u) {
                best = Some(self.places.earlier(best, u));
            }
            pipe = self.pipe_above(v, u, pipe);
            last = u;
        }
        best
    }

    // Joins p and u by fill, unless they are joined already; says whether.
    fn join(&self, rows: &mut [u64], p: Junction, u: Junction) -> bool
        requires first { (1 ≤ p.0) × (p.0 ≤ (P.meaning self.now.plan.now).size) }
        requires second { (1 ≤ u.0) × (u.0 ≤ (P.meaning self.now.plan.now).size) }
        requires room { 8 * (P.meaning self.now.plan.now).size ≤ length rows.old }
        ensures { Joins (P.meaning self.now.plan.now) p.0 u.0 rows.old result rows.new }
    {
        if self.plan.joined(p, u) || pairs::is_marked(rows, p, u) {
            return false;
        }
        pairs::mark(rows, p, u);
        true
    }

    // Joins p to v's other neighbours at later places; answers how many pairs that adds.
    fn take_over(&self, rows: &mut [u64], v: Junction, p: Junction) -> u32
        requires table { Table (P.meaning self.now.plan.now).size rows.old }
        requires first { (1 ≤ v.0) × (v.0 ≤ (P.meaning self.now.plan.now).size) }
        requires second { (1 ≤ p.0) × (p.0 ≤ (P.meaning self.now.plan.now).size) }
        requires later { at self.now.places.places v.0 < at self.now.places.places p.0 }
        ensures rows { TakesOver (P.meaning self.now.plan.now) (at self.now.places.places) v.0 p.0 rows.old rows.new }
        ensures count { Adds (P.meaning self.now.plan.now) rows.old result rows.new }
    {
        // By a cursor: the rows change on the way, so no iterator may hold them.
        let mut added = 0;
        let mut last = Junction(0);
        let mut pipe = self.plan.next(v, last);
        while let Some(u) = self.next_known(rows, v, last, pipe) {
            if self.places.place_of(v) < self.places.place_of(u)
                && u != p
                && self.join(rows, p, u)
            {
                added += 1;
            }
            pipe = self.pipe_above(v, u, pipe);
            last = u;
        }
        added
    }

    /// Eliminates v, the first that is left; answers how many fill pairs that adds.
    pub(crate) fn eliminate(&self, rows: &mut [u64], v: Junction) -> u32
        requires table { Table (P.meaning self.now.plan.now).size rows.old }
        requires junction { (1 ≤ v.0) × (v.0 ≤ (P.meaning self.now.plan.now).size) }
        ensures rows { Eliminates (P.meaning self.now.plan.now) (at self.now.places.places) v.0 rows.old rows.new }
        ensures count { Adds (P.meaning self.now.plan.now) rows.old result rows.new }
    {
        match self.earliest(rows, v) {
            Some(p) => self.take_over(rows, v, p),
            None => 0,
        }
    }
}
