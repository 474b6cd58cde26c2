use calls::Lists;
use edge::filled;
use image_order::{PIPES, order_image};
use label::{Kind, Lexicographic};
use plan::Junction;
use std::alloc::Global;
use std::process::Abort;
use std::test::Fail;
use visit::Listing;

/// The ring of four junctions; here again, since the tests of a crate are seen by no other.
const RING: &[u8; 40] =
    b"\x04\0\x04\0\x01\0\0\0\x01\0\x03\0\x04\0\0\0\x01\0\x02\0\x02\0\x01\0\x04\0\0\0\x02\0\x03\0\0\0\x03\0\x04\0\0\0";

/// Three junctions without a pipe.
const NO_PIPE: &[u8; 14] = b"\x03\0\0\0\x01\0\0\0\0\0\0\0\0\0";

#[test]
fn orders_the_ring(rt: HostRuntime) -> Result<(), Fail> {
    shows(
        &rt,
        rt.alloc(),
        RING,
        4 + 4 * usize::from(PIPES),
        4,
        "order 3 4 2 1\nfill 1 cells 5\nring 1 2 3 4\n",
    )
}

#[test]
fn orders_a_plan_without_pipes(rt: HostRuntime) -> Result<(), Fail> {
    shows(
        &rt,
        rt.alloc(),
        NO_PIPE,
        3 + 4 * usize::from(PIPES),
        4,
        "order 3 2 1\nfill 0 cells 0\nring none\n",
    )
}

#[test]
fn turns_down(rt: HostRuntime) -> Result<(), Fail> {
    let heap = rt.alloc();
    let long = 4 + 4 * usize::from(PIPES);
    let mut bytes = [0; 41];
    bytes[0..40].copy_from_slice(RING);
    // A byte behind the image.
    shows(&rt, heap, &bytes, long, 4, "no 4\n")?;
    // Memory of one number too few, for the register and for the order.
    shows(&rt, heap, &bytes[0..40], long - 1, 4, "no 8\n")?;
    shows(&rt, heap, &bytes[0..40], long, 3, "no 8\n")?;
    // A chain torn between its two records: the second is in no chain.
    bytes[20] = 0;
    shows(&rt, heap, &bytes[0..40], 0, 0, "no 6\n")
}

// That the order of an image has these lines, with so many numbers for the register, and memory for
// an order of so many junctions.
fn shows(
    rt: &impl Abort,
    heap: Global,
    bytes: &[u8],
    long: usize,
    junctions: u16,
    lines: &str,
) -> Result<(), Fail> {
    let k = junctions as usize;
    let memory = filled(heap, 0, long)?;
    let mut places = filled(heap, Junction(0), k)?;
    let mut ring = filled(heap, Junction(0), k)?;
    let mut rows = filled(heap, 0, 8 * k)?;
    let mut labels = filled(heap, Lexicographic.empty(), k)?;
    let mut scratch = filled(heap, 0, 2 * k)?;
    let answer = order_image(
        bytes,
        memory,
        &mut places,
        &mut ring,
        &mut rows,
        &mut labels,
        &mut scratch,
    );
    let lists = Lists {
        places: &places,
        ring: &ring,
        rows: &rows,
    };
    let listing = Listing { answer, lists };
    let text = format!(in heap; "{listing}")?;
    assert!(rt; text.as_str() == lines);
    Ok(())
}
