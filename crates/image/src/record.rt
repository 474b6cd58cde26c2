//! The records of an image.
ghost use Rattle.std.specs.Prelude.{◌≡◌, ◌+◌, ◌≤◌, length};
ghost use Rattle.std.specs.NonZero.{non_zero_u16_get};
ghost use Rattle.image.specs.Images.{field, record_at};
ghost use Rattle.image.specs.Records.{index_field};

use crate::fields::read;
use plan::Junction;
use std::num::NonZeroU16;

/// A record of an image.
#[derive(Clone, Copy)]
pub(crate) struct Record {
    pub(crate) near: Junction,
    pub(crate) far: Junction,
    /// The index of the next record of its chain, if any.
    pub(crate) next: Option<NonZeroU16>,
}

impl Record {
    /// The record whose six bytes begin at index `at`.
    pub(crate) fn read(bytes: &[u8], at: usize) -> Record
        requires { at + 6 ≤ length bytes.now }
        ensures near { result.near.0 ≡ field bytes.now at }
        ensures far { result.far.0 ≡ field bytes.now (at + 2) }
        ensures next { index_field result.next ≡ field bytes.now (at + 4) }
    {
        Record {
            near: Junction(read(bytes, at)),
            far: Junction(read(bytes, at + 2)),
            next: NonZeroU16::new(read(bytes, at + 4)),
        }
    }
}

/// Where the record of index i begins in an image of n junctions.
pub(crate) fn record_start(n: u16, i: NonZeroU16) -> usize
    ensures { result ≡ record_at n (non_zero_u16_get i) }
{
    8 + 2 * usize::from(n) + 6 * (usize::from(i.get()) - 1)
}
