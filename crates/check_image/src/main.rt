//! Looks at an image before it is sent: prints the plan that it is, or why it is refused.

#![tactic(auto)]

mod report;
#[cfg(test)]
mod tests;

use edge::read_input;
use image::{CheckedImage, IMAGE_LIMIT};
use report::Report;
use std::io;

// Prints the report on the image that standard input, or the file named, has.
fn main(rt: HostRuntime) -> io::Result<()> {
    // One byte more than an image can have, so that a longer input is refused for its length.
    let bytes = read_input(&rt, IMAGE_LIMIT as u64 + 1)?;
    let report = Report(CheckedImage::new(bytes));
    print!(rt; "{report}")
}
