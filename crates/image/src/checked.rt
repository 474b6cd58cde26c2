//! A checked image: bytes that are known to be a sound image.

mod making;
mod reading;

ghost use Rattle.std.specs.Prelude.{◌≡◌, true};
ghost use Rattle.image.specs.Images.{image_of};
ghost use Rattle.image.specs.Reading.{is_sound};

use crate::header::Header;

/// A sound image over bytes of its own. It is read in place: nothing is unpacked.
#[derive(Drop)]
pub struct CheckedImage {
    header: Header,
    bytes: Vec<u8>,
    ghost sound: { is_sound bytes.items ≡ true },
    ghost size: { header.n ≡ (image_of (bytes.items)).size },
    ghost count: { header.records ≡ (image_of (bytes.items)).records },
}
