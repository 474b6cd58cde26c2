//! Making a checked image.
ghost use Rattle.image.specs.Checked.{Making};

use crate::checked::CheckedImage;
use crate::reader::check;
use plan::TurnedDown;

impl CheckedImage {
    /// The image that the bytes are. Turned down by 4, 5, 4, 6 as [`check`] does, and then the
    /// bytes are given back unchanged.
    pub fn new(bytes: Vec<u8>) -> Result<CheckedImage, TurnedDown<Vec<u8>>>
        ensures { Making bytes result }
    {
        // Both arms take the bytes, which two closures could not.
        match check(&bytes) {
            Ok(header) => Ok(CheckedImage { header, bytes }),
            Err(refusal) => Err(TurnedDown {
                refusal,
                memory: bytes,
            }),
        }
    }
}
