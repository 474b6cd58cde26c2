//! Reading a checked image.
ghost use Rattle.std.specs.Prelude.{◌≡◌, ◌<◌, ◌≤◌, true, vec_items};
ghost use Rattle.plan.specs.Plans.{NextNeighbour, within};
ghost use Rattle.image.specs.Checked.{image_in, plan_in, LowerNeighbour};
ghost use Rattle.image.specs.CheckedPlans.{checked_sound};

use crate::checked::CheckedImage;
use crate::layout::Layout;
use plan::{Junction, ReadablePlan};
use std::cmp::Ordering;

impl CheckedImage {
    /// The number of records.
    pub fn records(&self) -> u16
        ensures { result ≡ (image_in self.now).records }
    {
        self.header.records
    }

    /// The bytes as they are laid out.
    fn layout(&self) -> Layout<'_>
        ensures bytes { result.bytes.now ≡ vec_items self.now.bytes }
        ensures header { result.header ≡ self.now.header }
    {
        Layout {
            bytes: &self.bytes,
            header: self.header,
        }
    }

    /// The lowest neighbour of v above w, where w is v or above.
    fn next_upper(&self, v: Junction, w: Junction) -> Option<Junction>
        requires inside { within (image_in self.now).size v.0 ≡ true }
        requires upper { v.0 ≤ w.0 }
        ensures { NextNeighbour (plan_in self.now) v.0 w.0 result }
    {
        self.layout().next_above(v, w)
    }

    /// Whether the chain of v, the lower of the two, has a record with far end w.
    fn links(&self, v: Junction, w: Junction) -> bool
        requires inside { within (image_in self.now).size v.0 ≡ true }
        requires lower { v.0 < w.0 }
        ensures { result ≡ (plan_in self.now).joins v.0 w.0 }
    {
        self.next_upper(v, Junction(w.0 - 1)) == Some(w)
    }

    /// The lowest neighbour of v above w and below v.
    fn next_lower(&self, v: Junction, w: Junction) -> Option<Junction>
        requires inside { within (image_in self.now).size v.0 ≡ true }
        requires lower { w.0 < v.0 }
        ensures { LowerNeighbour (plan_in self.now) v.0 w.0 result }
    {
        (w.0 + 1..v.0)
            .find(|u| self.links(Junction(*u), v))
            .map(Junction)
    }
}

/// A checked image as a readable plan: every junction is in service, and the pipes are the pairs of
/// its records.
impl ReadablePlan for CheckedImage {
    ghost meaning = { plan_in };

    ghost sound = { checked_sound };

    fn size(&self) -> u16 {
        self.header.n
    }

    fn serves(&self, v: Junction) -> bool {
        v.is_within(self.header.n)
    }

    fn joined(&self, v: Junction, w: Junction) -> bool {
        match v.cmp(&w) {
            Ordering::Less => v.is_within(self.header.n) && self.links(v, w),
            Ordering::Greater => w.is_within(self.header.n) && self.links(w, v),
            Ordering::Equal => false,
        }
    }

    fn next(&self, v: Junction, w: Junction) -> Option<Junction> {
        if !v.is_within(self.header.n) {
            return None;
        }
        if v <= w {
            return self.next_upper(v, w);
        }
        self.next_lower(v, w).or_else(|| self.next_upper(v, v))
    }
}
