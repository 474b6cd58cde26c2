//! Bytes that are laid out as an image: what its chains are read from.
ghost use Rattle.image.specs.Reading.{Laid};

use crate::header::Header;

/// Bytes with a sound header and the length that it says. They are read in place.
#[derive(Clone, Copy)]
pub(crate) struct Layout<'a> {
    pub(crate) bytes: &'a [u8],
    pub(crate) header: Header,
    ghost laid: { Laid bytes.now header },
}
