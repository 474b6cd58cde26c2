use crate::report::Report;
use image::CheckedImage;
use std::alloc::Global;
use std::process::Abort;
use std::test::Fail;

/// The ring of four junctions; here again, since the tests of a crate are seen by no other.
const RING: &[u8; 40] =
    b"\x04\0\x04\0\x01\0\0\0\x01\0\x03\0\x04\0\0\0\x01\0\x02\0\x02\0\x01\0\x04\0\0\0\x02\0\x03\0\0\0\x03\0\x04\0\0\0";

/// Four junctions, with the pipes 2 3 and 3 4 alone.
const TWO_PIPES: &[u8; 28] =
    b"\x04\0\x02\0\x01\0\0\0\0\0\x01\0\x02\0\0\0\x02\0\x03\0\0\0\x03\0\x04\0\0\0";

/// The ring with a fifth record, from 2 to 4, in no chain.
const LOST: &[u8; 46] =
    b"\x04\0\x05\0\x01\0\0\0\x01\0\x03\0\x04\0\0\0\x01\0\x02\0\x02\0\x01\0\x04\0\0\0\x02\0\x03\0\0\0\x03\0\x04\0\0\0\x02\0\x04\0\0\0";

#[test]
fn shows_the_pipes(rt: HostRuntime) -> Result<(), Fail> {
    shows(
        &rt,
        rt.alloc(),
        RING,
        "junctions 4 pipes 4\njunction 1 neighbours 2 4\njunction 2 neighbours 1 3\njunction 3 neighbours 2 4\njunction 4 neighbours 1 3\n",
    )
}

#[test]
fn leaves_out_what_has_no_pipe(rt: HostRuntime) -> Result<(), Fail> {
    shows(
        &rt,
        rt.alloc(),
        TWO_PIPES,
        "junctions 4 pipes 2\njunction 2 neighbours 3\njunction 3 neighbours 2 4\njunction 4 neighbours 3\n",
    )
}

#[test]
fn shows_refusals(rt: HostRuntime) -> Result<(), Fail> {
    let heap = rt.alloc();
    let mut bytes = *RING;
    shows(&rt, heap, &bytes[0..7], "no 4\n")?;
    shows(&rt, heap, &bytes[0..39], "no 4\n")?;
    // A chain torn between its two records: the second is in no chain.
    bytes[20] = 0;
    shows(&rt, heap, &bytes, "no 6 0\n")?;
    // A chain that leads to a record of another junction.
    bytes[20] = 3;
    shows(&rt, heap, &bytes, "no 6 1\n")?;
    bytes[4] = 2;
    shows(&rt, heap, &bytes, "no 5\n")
}

#[test]
fn refuses_loops_and_shared_tails(rt: HostRuntime) -> Result<(), Fail> {
    let heap = rt.alloc();
    // The second record of junction 1 leads to itself, then back to the first.
    let mut bytes = *RING;
    bytes[26] = 2;
    shows(&rt, heap, &bytes, "no 6 1\n")?;
    bytes[26] = 1;
    shows(&rt, heap, &bytes, "no 6 1\n")?;
    // Junctions 2 and 3 have one chain.
    bytes = *RING;
    bytes[12] = 3;
    shows(&rt, heap, &bytes, "no 6 3\n")?;
    // A record that no chain reaches, and the ring with a byte behind it.
    let mut longer = *LOST;
    shows(&rt, heap, &longer, "no 6 0\n")?;
    longer[2] = 4;
    shows(&rt, heap, &longer[0..41], "no 4\n")?;
    shows(
        &rt,
        heap,
        &longer[0..40],
        "junctions 4 pipes 4\njunction 1 neighbours 2 4\njunction 2 neighbours 1 3\njunction 3 neighbours 2 4\njunction 4 neighbours 1 3\n",
    )
}

// That the report on the bytes has these lines.
fn shows(rt: &impl Abort, heap: Global, bytes: &[u8], lines: &str) -> Result<(), Fail> {
    let report = Report(CheckedImage::new(bytes.to_vec(heap)?));
    let text = format!(in heap; "{report}")?;
    assert_eq!(rt; text.as_str(), lines);
    Ok(())
}
