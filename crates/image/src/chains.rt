//! The chains of an image.
ghost use Rattle.std.specs.Prelude.{◌≡◌, ◌≤◌, true};
ghost use Rattle.std.specs.Iterator.{at_most};
ghost use Rattle.std.specs.NonZero.{non_zero_u16_get};
ghost use Rattle.plan.specs.Plans.{NextNeighbour, within};
ghost use Rattle.plan.specs.Refusals.{heard};
ghost use Rattle.image.specs.Chains.{plan_of};
ghost use Rattle.image.specs.Images.{image_of};
ghost use Rattle.image.specs.Records.{index_field, Reads, RecordOf, FollowerOf, ChainSteps, steps_left};
ghost use Rattle.image.specs.SoundSteps.{SoundSteps, ends_left};
ghost use Rattle.image.specs.Reading.{Walked, chains_verdict, is_sound};

use crate::fields::read;
use crate::layout::Layout;
use crate::record::{Record, record_start};
use crate::sound_chain::SoundChain;
use plan::{Junction, Refusal};
use std::num::NonZeroU16;

/// A walk along the chain of `of`, behind a far end `low`: the far ends of its records. It meets a
/// record that may not follow as `None`, and nothing behind it.
#[derive(Drop)]
struct Chain<'a> {
    image: Layout<'a>,
    of: Junction,
    low: Junction,
    at: Option<NonZeroU16>,
}

impl Iterator for Chain<'_> {
    type Item = Option<Junction>;

    ghost next_gives = { ChainSteps };

    ghost remaining = { λ s. at_most (steps_left s) };

    fn next(&mut self) -> Option<Option<Junction>> {
        let i = self.at.take()?;
        let found = self.image.follower(self.of, self.low, i);
        if let Some(found) = found {
            self.low = found.far;
            self.at = found.next;
        }
        Some(found.map(|found| found.far))
    }
}

impl Iterator for SoundChain<'_> {
    type Item = Junction;

    ghost next_gives = { SoundSteps };

    ghost remaining = { λ s. at_most (ends_left (image_of s.image.bytes.now) (index_field s.at)) };

    fn next(&mut self) -> Option<Junction> {
        let found = self.image.known_record(self.at?);
        self.at = found.next;
        Some(found.far)
    }
}

// That v is a junction of the image is asked of each call: a junction alone is a number, and a type
// that ties it to the image would be no plainer.
impl<'a> Layout<'a> {
    /// The record of index i, which is one of the records.
    fn known_record(&self, i: NonZeroU16) -> Record
        requires { non_zero_u16_get i ≤ (image_of self.now.bytes.now).records }
        ensures { Reads (image_of self.now.bytes.now) (non_zero_u16_get i) result }
    {
        Record::read(self.bytes, record_start(self.header.n, i))
    }

    /// The record of index i, or `None` above the number of records.
    fn record(&self, i: NonZeroU16) -> Option<Record>
        ensures { RecordOf (image_of self.now.bytes.now) (non_zero_u16_get i) result }
    {
        if i.get() > self.header.records {
            return None;
        }
        Some(self.known_record(i))
    }

    /// The record of index i, where it may follow a far end `low` in the chain of v.
    fn follower(&self, v: Junction, low: Junction, i: NonZeroU16) -> Option<Record>
        ensures { FollowerOf (image_of self.now.bytes.now) v.0 low.0 (non_zero_u16_get i) result }
    {
        let found = self.record(i)?;
        if found.near != v || found.far <= low || found.far.0 > self.header.n {
            return None;
        }
        Some(found)
    }

    /// The index of the first record in the chain of v, if any.
    fn head(&self, v: Junction) -> Option<NonZeroU16>
        requires { within self.now.header.n v.0 ≡ true }
        ensures { index_field result ≡ (image_of self.now.bytes.now).head v.0 }
    {
        NonZeroU16::new(read(self.bytes, 8 + 2 * v.index()))
    }

    /// The chain of v, from its first record on.
    fn chain(&self, v: Junction) -> Chain<'a>
        requires { within self.now.header.n v.0 ≡ true }
        ensures image { result.image ≡ self.now }
        ensures of { result.of ≡ v }
        ensures low { result.low ≡ v }
        ensures at { index_field result.at ≡ (image_of self.now.bytes.now).head v.0 }
    {
        Chain {
            image: *self,
            of: v,
            low: v,
            at: self.head(v),
        }
    }

    /// The chain of v in a sound image, from its first record on.
    fn sound_chain(&self, v: Junction) -> SoundChain<'a>
        requires sound { is_sound self.now.bytes.now ≡ true }
        requires inside { within self.now.header.n v.0 ≡ true }
        ensures image { result.image ≡ self.now }
        ensures at { index_field result.at ≡ (image_of self.now.bytes.now).head v.0 }
    {
        SoundChain {
            image: *self,
            at: self.head(v),
        }
    }

    /// How many records the chain of v has, or `None` where it is faulty.
    fn chain_length(&self, v: Junction) -> Option<u16>
        requires { within self.now.header.n v.0 ≡ true }
        ensures { Walked (image_of self.now.bytes.now) v.0 result }
    {
        let mut passed = 0;
        for far in self.chain(v) {
            far?;
            passed += 1;
        }
        Some(passed)
    }

    /// The lowest far end above w in the chain of v, where w is v or above: in a sound image, v's
    /// next neighbour after w.
    pub(crate) fn next_above(&self, v: Junction, w: Junction) -> Option<Junction>
        requires sound { is_sound self.now.bytes.now ≡ true }
        requires inside { within self.now.header.n v.0 ≡ true }
        requires upper { v.0 ≤ w.0 }
        ensures { NextNeighbour (plan_of (image_of self.now.bytes.now)) v.0 w.0 result }
    {
        self.sound_chain(v).find(|far| *far > w)
    }

    /// Turned down by 6 with the junction of the first faulty chain, or with junction 0 where every
    /// chain is sound and a record is in none.
    pub(crate) fn check_chains(&self) -> Result<(), Refusal>
        ensures { heard result ≡ chains_verdict (image_of self.now.bytes.now) }
    {
        let mut reached = 0;
        for v in 1..self.header.n + 1 {
            let v = Junction(v);
            // No record is in two chains, for its near end tells which, so none is counted twice.
            reached += self.chain_length(v).ok_or(Refusal::ChainFault(v))?;
        }
        if reached != self.header.records {
            return Err(Refusal::ChainFault(Junction(0)));
        }
        Ok(())
    }
}
