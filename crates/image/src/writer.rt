//! Writing the image of a plan.
ghost use Rattle.std.specs.Prelude.{◌≡◌, ◌+◌, ◌-◌, ◌*◌, ◌≤◌, [], ◌∷◌, length};
ghost use Rattle.image.specs.Images.{bytes_of};
ghost use Rattle.image.specs.Writing.{chain_to, heads, pipes_to, records_to, uppers, Writing};

use crate::fields::{put, put_all};
use crate::header::{EDITION, MOST_RECORDS};
use plan::{Junction, ReadablePlan, Refusal, neighbours_above};

/// How many neighbours of v are above it.
fn upper_count<P: ReadablePlan>(plan: &P, v: Junction) -> usize
    requires { v.0 ≤ (P.ReadablePlan.meaning plan.now).size }
    ensures { result ≡ uppers (P.ReadablePlan.meaning plan.now) v.0 (P.ReadablePlan.meaning plan.now).size }
{
    neighbours_above(plan, v, v).count()
}

/// How many pipes the plan has.
fn pipe_count<P: ReadablePlan>(plan: &P) -> usize
    ensures { result ≡ pipes_to (P.ReadablePlan.meaning plan.now) (P.ReadablePlan.meaning plan.now).size }
{
    // By their lower ends, as the records are written, and not by `plan::pipes`, which counts by the
    // higher: for a lower neighbour a checked image goes through one chain after another.
    let mut found = 0;
    for v in 1..plan.size() + 1 {
        found += upper_count(plan, Junction(v));
    }
    found
}

/// Writes the heads into their stretch, one field for each junction.
fn write_heads<P: ReadablePlan>(plan: &P, part: &mut [u8])
    requires long { length part.old ≡ 2 * (P.ReadablePlan.meaning plan.now).size }
    requires few { pipes_to (P.ReadablePlan.meaning plan.now) (P.ReadablePlan.meaning plan.now).size ≤ 8000 }
    ensures { part.new ≡ bytes_of (heads (P.ReadablePlan.meaning plan.now) (P.ReadablePlan.meaning plan.now).size) }
{
    let mut before = 0;
    for v in 1..plan.size() + 1 {
        let v = Junction(v);
        let found = upper_count(plan, v);
        // A junction without records has the head 0.
        let head = if found == 0 { 0 } else { before as u16 + 1 };
        let at = 2 * v.index();
        // By index: of chunks that were lent a proof knows the length alone afterwards.
        put(&mut part[at..at + 2], head);
        before += found;
    }
}

/// Writes the chain of v into its stretch, behind `before` records of lower junctions.
fn write_chain<P: ReadablePlan>(plan: &P, v: Junction, before: usize, part: &mut [u8])
    requires inside { (1 ≤ v.0) × (v.0 ≤ (P.ReadablePlan.meaning plan.now).size) }
    requires before { before ≡ pipes_to (P.ReadablePlan.meaning plan.now) (v.0 - 1) }
    requires few { before ≤ 8000 }
    requires long { length part.old ≡ 6 * uppers (P.ReadablePlan.meaning plan.now) v.0 (P.ReadablePlan.meaning plan.now).size }
    ensures { part.new ≡ bytes_of (chain_to (P.ReadablePlan.meaning plan.now) v.0 (P.ReadablePlan.meaning plan.now).size) }
{
    for (k, w) in neighbours_above(plan, v, v).enumerate() {
        let at = 6 * k;
        let end = at + 6;
        // The last record of a chain has the link 0.
        let next = if end < part.len() {
            (before + k) as u16 + 2
        } else {
            0
        };
        put_all(&mut part[at..end], &[v.0, w.0, next]);
    }
}

/// Writes the records into their stretch, the chains in the order of their junctions.
fn write_records<P: ReadablePlan>(plan: &P, part: &mut [u8])
    requires long { length part.old ≡ 6 * pipes_to (P.ReadablePlan.meaning plan.now) (P.ReadablePlan.meaning plan.now).size }
    requires few { pipes_to (P.ReadablePlan.meaning plan.now) (P.ReadablePlan.meaning plan.now).size ≤ 8000 }
    ensures { part.new ≡ bytes_of (records_to (P.ReadablePlan.meaning plan.now) (P.ReadablePlan.meaning plan.now).size) }
{
    let mut before = 0;
    for v in 1..plan.size() + 1 {
        let v = Junction(v);
        let after = before + upper_count(plan, v);
        write_chain(plan, v, before, &mut part[6 * before..6 * after]);
        before = after;
    }
}

/// Writes the image of the plan to the front of `out` and answers its length; the bytes behind it
/// stay. Turned down by 19 where the plan has more than 8,000 pipes, then by 8 where `out` is too
/// short, and then no byte is changed.
pub fn write<P: ReadablePlan>(plan: &P, out: &mut [u8]) -> Result<usize, Refusal>
    ensures { Writing (P.ReadablePlan.meaning plan.now) out.old result out.new }
{
    let n = plan.size();
    let records = pipe_count(plan);
    if records > usize::from(MOST_RECORDS) {
        return Err(Refusal::TooManyPipes);
    }
    let first = 8 + 2 * usize::from(n);
    let long = first + 6 * records;
    if out.len() < long {
        return Err(Refusal::ShortMemory);
    }
    put_all(&mut out[0..8], &[n, records as u16, EDITION, 0]);
    write_heads(plan, &mut out[8..first]);
    write_records(plan, &mut out[first..long]);
    Ok(long)
}
