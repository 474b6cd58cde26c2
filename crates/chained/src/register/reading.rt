//! Reading a chained register.
ghost use Rattle.std.specs.Prelude.{◌≡◌, ◌-◌, ◌≤◌, true};
ghost use Rattle.plan.specs.Plans.{within, NextNeighbour};
ghost use Rattle.chained.specs.Making.{plan_of};
ghost use Rattle.chained.specs.Reading.{SeatIn};
ghost use Rattle.chained.specs.Walks.{plan_sound};

use crate::register::ChainedRegister;
use plan::{Junction, ReadablePlan};

/// What a walk along a chain finds.
#[derive(Clone, Copy)]
pub(super) struct Found {
    /// The last node of the chain with a lower far end than looked for.
    pub(super) seat: u16,
    /// The far end of the node behind it, where there is one.
    pub(super) neighbour: Option<Junction>,
}

impl ChainedRegister {
    /// The last node of v's chain with far end below w.
    fn seat(&self, v: Junction, w: u16) -> u16
        requires { (within self.now.n v.0 ≡ true) × (1 ≤ w) }
        ensures { SeatIn self.now v.0 w result }
    {
        // Chains are numbers in the memory handed over, so 0 ends one and no reference leads on.
        // Indices are cast by `as` here and below, so that each reads as the formula of the layout.
        let cells = self.cells.as_slice();
        let ends = 2 * self.c as usize;
        let mut node = v.0 - 1;
        let mut next = cells[node as usize];
        while next != 0 && cells[next as usize + ends] < w {
            node = next;
            next = cells[node as usize];
        }
        node
    }

    /// The seat of w in v's chain, and the lowest neighbour of v from w on: one walk.
    pub(super) fn find(&self, v: Junction, w: u16) -> Found
        requires { (within self.now.n v.0 ≡ true) × (1 ≤ w) }
        ensures seat { SeatIn self.now v.0 w result.seat }
        ensures neighbour { NextNeighbour (plan_of self.now) v.0 (w - 1) result.neighbour }
    {
        let seat = self.seat(v, w);
        let cells = self.cells.as_slice();
        let next = cells[seat as usize];
        if next == 0 {
            return Found {
                seat,
                neighbour: None,
            };
        }
        let far = cells[next as usize + 2 * self.c as usize];
        Found {
            seat,
            neighbour: Some(Junction(far)),
        }
    }
}

/// The chained register as a readable plan.
impl ReadablePlan for ChainedRegister {
    ghost meaning = { plan_of };

    ghost sound = { plan_sound };

    fn size(&self) -> u16 {
        self.n
    }

    fn serves(&self, v: Junction) -> bool {
        v.is_within(self.n)
    }

    fn joined(&self, v: Junction, w: Junction) -> bool {
        v.is_within(self.n) && w.is_within(self.n) && self.find(v, w.0).neighbour == Some(w)
    }

    fn next(&self, v: Junction, w: Junction) -> Option<Junction> {
        // No neighbour is above n, and w + 1 stays in its type.
        if !v.is_within(self.n) || w.0 >= self.n {
            return None;
        }
        self.find(v, w.0 + 1).neighbour
    }
}
