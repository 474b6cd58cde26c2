//! A walk along a chain of a sound image.
ghost use Rattle.std.specs.Prelude.{◌≡◌, ◌≤◌, true};
ghost use Rattle.image.specs.Images.{image_of};
ghost use Rattle.image.specs.Reading.{is_sound};
ghost use Rattle.image.specs.Records.{index_field};

use crate::layout::Layout;
use std::num::NonZeroU16;

/// The far ends of the records from index `at` on, to the end of the chain. It asks of no record
/// whether it may follow, as the walk that checks an image does: in a sound image each may.
#[derive(Drop)]
pub(crate) struct SoundChain<'a> {
    pub(crate) image: Layout<'a>,
    pub(crate) at: Option<NonZeroU16>,
    ghost sound: { is_sound image.bytes.now ≡ true },
    ghost inside: { index_field at ≤ (image_of image.bytes.now).records },
}
