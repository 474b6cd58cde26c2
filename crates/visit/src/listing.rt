//! How a listing shows the answer to a line of a sheet.
ghost use Rattle.std.specs.Prelude.{◌≡◌, ◌++◌, codes, take, Some};
ghost use Rattle.std.specs.Fmt.{WritesOnOk};
ghost use Rattle.visit.specs.Listings.{spaced, junction_line, fill_line, ring_line, listing};

use calls::{Answer, Lists, Outcome};
use order::Report;
use plan::Junction;
use std::fmt;

/// An answer with the lists that an order wrote, as the lines of a listing: `ok`, or `no` and the
/// number, or the three lines of an order.
#[derive(Clone, Copy)]
pub struct Listing<'a> {
    pub answer: Answer,
    pub lists: Lists<'a>,
}

impl fmt::Display for Listing<'_> {
    ghost output = { λ x. Some (listing x.answer x.lists.places.now x.lists.ring.now) };

    fn fmt<W: fmt::Write>(&self, f: &mut fmt::Formatter<W>) -> fmt::Result {
        match self.answer {
            Ok(Outcome::Done) => writeln!(f, "ok"),
            Err(refusal) => writeln!(f, "no {refusal}"),
            Ok(Outcome::Ordered(n, report)) => {
                write_order(f, first(self.lists.places, n), report, self.lists.ring)
            }
        }
    }
}

// Writes the three lines of an order.
fn write_order<W: fmt::Write>(
    f: &mut fmt::Formatter<W>,
    places: &[Junction],
    report: Report,
    ring: &[Junction],
) -> fmt::Result
    ensures { WritesOnOk W.Write.write_str_gives f.old result (junction_line (codes "order") places.now ++ (fill_line report ++ ring_line report.ring ring.now)) f.new }
{
    write_junctions(f, "order", places)?;
    write_fill(f, report)?;
    write_ring(f, ring, report.ring)
}

// Writes the line of an order's fill pairs and cells.
fn write_fill<W: fmt::Write>(f: &mut fmt::Formatter<W>, report: Report) -> fmt::Result
    ensures { WritesOnOk W.Write.write_str_gives f.old result (fill_line report) f.new }
{
    let Report { fill, cells, .. } = report;
    writeln!(f, "fill {fill} cells {cells}")
}

// Writes the line of the first k junctions of a ring, or of none where k is 0.
fn write_ring<W: fmt::Write>(f: &mut fmt::Formatter<W>, ring: &[Junction], k: u16) -> fmt::Result
    ensures { WritesOnOk W.Write.write_str_gives f.old result (ring_line k ring.now) f.new }
{
    if k == 0 {
        return writeln!(f, "ring none");
    }
    write_junctions(f, "ring", first(ring, k))
}

// The first k junctions of a list, or all of a shorter one.
fn first(list: &[Junction], k: u16) -> &[Junction]
    ensures { result.now ≡ take k list.now }
{
    list.get(..usize::from(k)).unwrap_or(list)
}

// Writes a word and junctions behind it, each after a blank, as a line.
fn write_junctions<W: fmt::Write>(
    f: &mut fmt::Formatter<W>,
    word: &str,
    list: &[Junction],
) -> fmt::Result
    ensures { WritesOnOk W.Write.write_str_gives f.old result (junction_line word.now list.now) f.new }
{
    f.write_str(word)?;
    write_spaced(f, list)?;
    f.write_str("\n")
}

// Writes junctions, each after a blank.
fn write_spaced<W: fmt::Write>(f: &mut fmt::Formatter<W>, list: &[Junction]) -> fmt::Result
    ensures { WritesOnOk W.Write.write_str_gives f.old result (spaced list.now) f.new }
{
    for j in list {
        write!(f, " {j}")?;
    }
    Ok(())
}
