//! Loads an image and prints the order of its plan, or why it is turned down.

#![tactic(auto)]

#[cfg(test)]
mod tests;

use calls::Lists;
use edge::{filled, read_input};
use image::IMAGE_LIMIT;
use image_order::{PIPES, order_image};
use label::{Kind, Lexicographic};
use plan::Junction;
use std::io;
use visit::Listing;

// Prints the order of the image that standard input, or the file named, has.
fn main(rt: HostRuntime) -> io::Result<()> {
    let heap = rt.alloc();
    // One byte more than an image can have, so that a longer input is refused for its length.
    let bytes = read_input(&rt, IMAGE_LIMIT as u64 + 1)?;
    let memory = filled(heap, 0, 512 + 4 * usize::from(PIPES))?;
    let mut places = filled(heap, Junction(0), 512)?;
    let mut ring = filled(heap, Junction(0), 512)?;
    let mut rows = filled(heap, 0, 8 * 512)?;
    let mut labels = filled(heap, Lexicographic.empty(), 512)?;
    let mut scratch = filled(heap, 0, 2 * 512)?;
    let answer = order_image(
        &bytes,
        memory,
        &mut places,
        &mut ring,
        &mut rows,
        &mut labels,
        &mut scratch,
    );
    let lists = Lists {
        places: &places,
        ring: &ring,
        rows: &rows,
    };
    let listing = Listing { answer, lists };
    print!(rt; "{listing}")
}
