//! The header of an image.

/// The most junctions that an image may have.
pub(crate) const MOST_JUNCTIONS: u16 = 512;

/// The most records that an image may have.
pub(crate) const MOST_RECORDS: u16 = 8000;

/// The length of the longest image.
pub const IMAGE_LIMIT: usize = 8 + 2 * MOST_JUNCTIONS as usize + 6 * MOST_RECORDS as usize;

/// The edition of the format.
pub(crate) const EDITION: u16 = 1;

/// What the header of an image says.
#[derive(Clone, Copy, PartialEq, Eq, Debug)]
pub struct Header {
    /// n, the number of junctions.
    pub n: u16,
    /// The number of records.
    pub records: u16,
}
