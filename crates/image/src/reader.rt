//! Reading an image.
ghost use Rattle.std.specs.Prelude.{◌≡◌, IfOk};
ghost use Rattle.std.specs.Result.{result_map_both};
ghost use Rattle.plan.specs.Refusals.{heard};
ghost use Rattle.image.specs.Reading.{read_verdict, HeaderOf, HeaderRead, RecordEnds};

use crate::fields::{number, read};
use crate::header::{EDITION, Header, MOST_JUNCTIONS, MOST_RECORDS};
use crate::layout::Layout;
use crate::record::{Record, record_start};
use plan::{Junction, Refusal};
use std::num::NonZeroU16;

/// The layout of the bytes, where the fields of the header are in their ranges and the length is the
/// one that it says. Turned down by 4, 5, 4 else.
fn read_header(bytes: &[u8]) -> Result<Layout<'_>, Refusal>
    ensures bytes { IfOk result (λ image. image.bytes.now ≡ bytes.now) }
    ensures header { HeaderRead bytes.now (result_map_both (λ image. image.header) (λ refusal. refusal) result) }
{
    let [
        n_low,
        n_high,
        r_low,
        r_high,
        edition_low,
        edition_high,
        zero_low,
        zero_high,
        rest @ ..,
    ] = bytes
    else {
        return Err(Refusal::ImageLength);
    };
    let n = number(*n_low, *n_high);
    let records = number(*r_low, *r_high);
    let edition = number(*edition_low, *edition_high);
    let zero = number(*zero_low, *zero_high);
    if n == 0 || n > MOST_JUNCTIONS || records > MOST_RECORDS || edition != EDITION || zero != 0 {
        return Err(Refusal::ImageHeader);
    }
    if rest.len() != 2 * usize::from(n) + 6 * usize::from(records) {
        return Err(Refusal::ImageLength);
    }
    Ok(Layout {
        bytes,
        header: Header { n, records },
    })
}

/// The header of a sound image. Turned down by 4 under 8 bytes, 5 where a field of the header is
/// out of its range, 4 where the length is another than the header says, and 6 where a chain is
/// faulty or a record is in none, in this order.
pub fn check(bytes: &[u8]) -> Result<Header, Refusal>
    ensures says { heard result ≡ read_verdict bytes.now }
    ensures header { HeaderOf bytes.now result }
{
    let image = read_header(bytes)?;
    image.check_chains()?;
    Ok(image.header)
}

/// The near and the far end of the record of index i, counted from 1, or `None` where the bytes end
/// before it. A sound image has one for each index up to its number of records.
pub fn record_ends(bytes: &[u8], i: u16) -> Option<(Junction, Junction)>
    ensures { RecordEnds bytes.now i result }
{
    let i = NonZeroU16::new(i)?;
    if bytes.len() < 8 {
        return None;
    }
    let at = record_start(read(bytes, 0), i);
    if bytes.len() < at + 6 {
        return None;
    }
    let record = Record::read(bytes, at);
    Some((record.near, record.far))
}
