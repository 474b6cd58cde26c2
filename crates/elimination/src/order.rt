//! The check of an order, and the places of its junctions.
ghost use Rattle.std.specs.Prelude.{◌≡◌, ◌≤◌, true, false, MatchOption};
ghost use Rattle.plan.specs.Orders.{numbers, ordered};
ghost use Rattle.elimination.specs.Steps.{at, earlier_of, Places};

use plan::{Junction, Place};

/// The place of each junction in an order.
#[derive(Drop)]
pub(crate) struct PlaceTable {
    // Entry v − 1 is the place of v, or 0 as long as v has none. A table of options would be no
    // plainer: it would have to say besides that no place is 0.
    places: [u16; 512],
}

impl PlaceTable {
    /// The places in a list of junctions, or `None` where the list is no order of n junctions.
    pub(crate) fn of_order(n: u16, order: &[Junction]) -> Option<PlaceTable>
        requires { n ≤ 512 }
        ensures { MatchOption result (ordered n (numbers order.now) ≡ false) (λ table. (ordered n (numbers order.now) ≡ true) × Places n (numbers order.now) table.places) }
    {
        if order.len() != usize::from(n) {
            return None;
        }
        let mut places = [0; 512];
        for (i, v) in order.iter().enumerate() {
            if !v.is_within(n) || places[v.index()] != 0 {
                return None;
            }
            places[v.index()] = i as u16 + 1;
        }
        Some(PlaceTable { places })
    }

    /// The place of v.
    pub(crate) fn place_of(&self, v: Junction) -> Place
        ensures { result.0 ≡ at self.now.places v.0 }
    {
        Place(self.places.get(v.index()).copied().unwrap_or(0))
    }

    /// Of two junctions the one at the earlier place, where the first may be missing.
    pub(crate) fn earlier(&self, best: Option<Junction>, u: Junction) -> Junction
        ensures { result ≡ earlier_of (at self.now.places) best u }
    {
        best.map_or(u, |p| {
            if self.place_of(p) <= self.place_of(u) {
                p
            } else {
                u
            }
        })
    }
}
