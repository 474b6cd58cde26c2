//! The image of a plan: reading one, and writing one.

#![tactic(auto)]

mod chains;
mod checked;
mod fields;
mod header;
mod laws;
mod layout;
mod reader;
mod record;
mod sound_chain;
#[cfg(test)]
mod tests;
mod writer;

pub use checked::CheckedImage;
pub use header::{Header, IMAGE_LIMIT};
pub use laws::{image_laws, round_trips, worked_images};
pub use reader::{check, record_ends};
pub use writer::write;
