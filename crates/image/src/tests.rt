use crate::{CheckedImage, Header, check as check_image, write};
use plan::{Junction, ReadablePlan, Refusal};
use std::test::Fail;

/// The ring of four junctions.
const RING: &[u8; 40] =
    b"\x04\0\x04\0\x01\0\0\0\x01\0\x03\0\x04\0\0\0\x01\0\x02\0\x02\0\x01\0\x04\0\0\0\x02\0\x03\0\0\0\x03\0\x04\0\0\0";

#[test]
fn reads_the_ring(rt: HostRuntime) -> Result<(), Fail> {
    let image = ring(&rt)?;
    assert_eq!(rt; image.size(), 4);
    assert_eq!(rt; image.records(), 4);
    assert!(rt; image.joined(Junction(4), Junction(1)));
    assert!(rt; !image.joined(Junction(1), Junction(3)));
    assert_eq!(rt; image.next(Junction(4), Junction(0)), Some(Junction(1)));
    assert_eq!(rt; image.next(Junction(4), Junction(1)), Some(Junction(3)));
    assert_eq!(rt; image.next(Junction(4), Junction(3)), None);
    assert_eq!(rt; image.next(Junction(2), Junction(0)), Some(Junction(1)));
    assert_eq!(rt; image.next(Junction(2), Junction(1)), Some(Junction(3)));
    Ok(())
}

#[test]
fn writes_what_it_reads(rt: HostRuntime) -> Result<(), Fail> {
    let image = ring(&rt)?;
    let mut out = [7; 41];
    assert_eq!(rt; write(&image, &mut out), Ok(40));
    assert!(rt; out.starts_with(RING));
    assert_eq!(rt; out[40], 7);
    Ok(())
}

#[test]
fn turns_down(rt: HostRuntime) {
    let mut bytes = *RING;
    assert_eq!(rt; check_image(&bytes), Ok(Header { n: 4, records: 4 }));
    assert_eq!(rt; check_image(&bytes[..39]), Err(Refusal::ImageLength));
    assert_eq!(rt; check_image(&bytes[..7]), Err(Refusal::ImageLength));
    bytes[6] = 1;
    assert_eq!(rt; check_image(&bytes), Err(Refusal::ImageHeader));
    bytes[6] = 0;
    bytes[10] = 4;
    assert_eq!(rt; check_image(&bytes), Err(Refusal::ChainFault(Junction(2))));
}

/// The ring as a checked image.
fn ring(rt: &HostRuntime) -> Result<CheckedImage, Fail> {
    let image = CheckedImage::new(RING.to_vec(rt.alloc())?);
    Ok(image.map_err(|turned_down| turned_down.refusal)?)
}
