//! What the office reads of an image.
use image::CheckedImage;
use plan::{Junction, ReadablePlan, Refusal, TurnedDown, neighbours};
use std::fmt;

/// The image, or why the bytes are none, as lines: `junctions` and `pipes` with their numbers, and
/// `junction` and `neighbours` for each junction that has any; or `no` and the number of the
/// refusal, with the values that it comes with.
#[derive(Drop)]
pub(crate) struct Report(pub(crate) Result<CheckedImage, TurnedDown<Vec<u8>>>);

impl fmt::Display for Report {
    fn fmt<W: fmt::Write>(&self, f: &mut fmt::Formatter<W>) -> fmt::Result {
        match &self.0 {
            Ok(image) => {
                let n = image.size();
                // A sound image has a record for each pipe.
                let pipes = image.records();
                writeln!(f, "junctions {n} pipes {pipes}")?;
                write_pipes(f, image)
            }
            Err(turned) => write_refusal(f, turned.refusal),
        }
    }
}

// Writes the line of a refusal.
fn write_refusal<W: fmt::Write>(f: &mut fmt::Formatter<W>, refusal: Refusal) -> fmt::Result {
    match refusal {
        Refusal::ChainFault(v) => writeln!(f, "no {refusal} {v}"),
        _ => writeln!(f, "no {refusal}"),
    }
}

// Writes the lines of all junctions.
fn write_pipes<P: ReadablePlan, W: fmt::Write>(f: &mut fmt::Formatter<W>, plan: &P) -> fmt::Result {
    for v in (1..=plan.size()).map(Junction) {
        write_neighbours(f, plan, v)?;
    }
    Ok(())
}

// Writes the line of v with its neighbours, rising, or nothing where it has none.
fn write_neighbours<P: ReadablePlan, W: fmt::Write>(
    f: &mut fmt::Formatter<W>,
    plan: &P,
    v: Junction,
) -> fmt::Result {
    let mut walk = neighbours(plan, v);
    let Some(first) = walk.next() else {
        return Ok(());
    };
    write!(f, "junction {v} neighbours {first}")?;
    for w in walk {
        write!(f, " {w}")?;
    }
    writeln!(f)
}
