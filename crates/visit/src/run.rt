//! The visit itself.
ghost use Rattle.std.specs.Prelude.{◌≡◌, ℕ, ◌*◌, Bool};
ghost use Rattle.plan.specs.Memory.{KeptFrom};
ghost use Rattle.order.specs.Reports.{short};
ghost use Rattle.set.specs.Kept.{ledger};
ghost use Rattle.calls.specs.Heard as told;
ghost use Rattle.calls.specs.Heard.{lists_of};
ghost use Rattle.visit.specs.Openings.{NewSize, SetCall, SetMade, LineRun, LinesHeard, Opening};
ghost use Rattle.visit.specs.Visits.{with_set, Visit, Makes};

use crate::maker::{Maker, StatedMaker};
use calls::{Call, Listener, Lists, Outcome, run};
use label::{Count, Counting, Either, Lexicographic, MarkSet};
use plan::{Junction, Refusal, Register, TurnedDown};
use set::Set;
use sheet::{Call as Spelled, Lines, read_call};

/// The most bytes that a sheet may have.
pub const SHEET_LIMIT: usize = 16384;

/// A visit orders by one of two kinds of label.
pub type KindOfLabel = Either<Lexicographic, Counting>;

/// A label of either kind.
pub type LabelOfVisit = Either<MarkSet, Count>;

/// Makes the calls of a sheet, line by line, and lets the listener hear each answer. Before a set
/// exists only the line that makes one is a call, and afterwards it is none. A sheet of more than
/// 16,384 bytes is turned down whole, by 8.
// Five slices of memory, for the reason that stands at `order::order`.
pub fn visit<M: Maker + Drop, L: Listener>(
    sheet: &[u8],
    maker: M,
    listener: &mut L,
    places: &mut [Junction],
    ring: &mut [Junction],
    rows: &mut [u64],
    labels: &mut [LabelOfVisit],
    scratch: &mut [u16],
) -> Result<(), L::Error>
    ensures { (spare : M → ℕ → ℕ) (full : M → ℕ → Bool) → Makes M.Maker.makes M.Made.ReadablePlan.meaning M.Made.Register.left spare full → Visit (λ n. short n places.old ring.old rows.old labels.old scratch.old) (spare maker) (full maker) (lists_of places.old ring.old rows.old) sheet.now (lists_of places.new ring.new rows.new) (L.Listener.log listener.old) (L.Listener.log listener.new) labels.old labels.new scratch.old scratch.new result }
{
    if sheet.len() > SHEET_LIMIT {
        return listener.hear(Err(Refusal::ShortMemory), Lists { places, ring, rows });
    }
    match open_set(
        Lines::new(sheet),
        maker,
        listener,
        Lists { places, ring, rows },
    )? {
        Some((mut set, lines)) => run_lines(
            &mut set, lines, listener, places, ring, rows, labels, scratch,
        ),
        None => Ok(()),
    }
}

/// Makes a visit as [`visit`] does, by a maker whose registers are made as it states: what is heard is
/// then what the ledger says, whatever the sheet.
// Five slices of memory, for the reason that stands at `order::order`.
pub fn stated_visit<M: StatedMaker + Drop, L: Listener>(
    sheet: &[u8],
    maker: M,
    listener: &mut L,
    places: &mut [Junction],
    ring: &mut [Junction],
    rows: &mut [u64],
    labels: &mut [LabelOfVisit],
    scratch: &mut [u16],
) -> Result<(), L::Error>
    ensures { Visit (λ n. short n places.old ring.old rows.old labels.old scratch.old) (M.StatedMaker.spare maker) (M.StatedMaker.full maker) (lists_of places.old ring.old rows.old) sheet.now (lists_of places.new ring.new rows.new) (L.Listener.log listener.old) (L.Listener.log listener.new) labels.old labels.new scratch.old scratch.new result }
{
    visit(sheet, maker, listener, places, ring, rows, labels, scratch)
}

// Reads lines until one makes a set; every other is no call. Answers the set with the lines behind its
// line, or `None` at the sheet's end. What is heard of the lines does not hang on the memory for
// orders, whatever `tight` says of it.
fn open_set<'a, M: Maker + Drop, L: Listener>(
    lines: Lines<'a>,
    maker: M,
    listener: &mut L,
    lists: Lists<'_>,
) -> Result<Option<(Set<M::Made>, Lines<'a>)>, L::Error>
    ensures { (tight : ℕ → Bool) (spare : M → ℕ → ℕ) (full : M → ℕ → Bool) → Makes M.Maker.makes M.Made.ReadablePlan.meaning M.Made.Register.left spare full → Opening tight (spare maker) (full maker) M.Made.ReadablePlan.meaning M.Made.Register.left (lists_of lists.entry.places.now lists.entry.ring.now lists.entry.rows.now) lines.entry.rest.now (L.Listener.log listener.old) (L.Listener.log listener.new) result }
{
    let mut maker = maker;
    let mut lines = lines;
    // The lines behind go on with the set. A `for` over `&mut lines` was tried: the proof that it ends
    // did not close.
    while let Some(line) = lines.next() {
        match new_set(line, maker) {
            Ok(set) => {
                listener.hear(Ok(Outcome::Done), lists)?;
                return Ok(Some((set, lines)));
            }
            Err(turned) => {
                maker = turned.memory;
                listener.hear(Err(turned.refusal), lists)?;
            }
        }
    }
    Ok(None)
}

// Makes the set that a line asks for; a line that asks for none is turned down by 7.
fn new_set<M: Maker>(line: &[u8], maker: M) -> Result<Set<M::Made>, TurnedDown<M>>
    ensures { (tight : ℕ → Bool) (before : told.Lists) (spare : M → ℕ → ℕ) (full : M → ℕ → Bool) → Makes M.Maker.makes M.Made.ReadablePlan.meaning M.Made.Register.left spare full → SetMade tight (spare maker) (full maker) M.Made.ReadablePlan.meaning M.Made.Register.left before line.now maker result }
{
    let Some(n) = new_size(line) else {
        return Err(TurnedDown {
            refusal: Refusal::NoCall,
            memory: maker,
        });
    };
    Ok(Set::new(maker.make(n)?))
}

// Makes the calls of lines on a set.
fn run_lines<R: Register, L: Listener>(
    set: &mut Set<R>,
    lines: Lines<'_>,
    listener: &mut L,
    places: &mut [Junction],
    ring: &mut [Junction],
    rows: &mut [u64],
    labels: &mut [LabelOfVisit],
    scratch: &mut [u16],
) -> Result<(), L::Error>
    ensures heard { (spare : ℕ → ℕ) (full : ℕ → Bool) → LinesHeard (λ n. short n places.old ring.old rows.old labels.old scratch.old) spare full (with_set (ledger R.ReadablePlan.meaning R.Register.left set.old)) (lists_of places.old ring.old rows.old) lines.entry.rest.now (lists_of places.new ring.new rows.new) (L.Listener.log listener.old) (L.Listener.log listener.new) (with_set (ledger R.ReadablePlan.meaning R.Register.left set.new)) result }
    ensures size { (ledger R.ReadablePlan.meaning R.Register.left set.new).base.size ≡ (ledger R.ReadablePlan.meaning R.Register.left set.old).base.size }
    ensures labels { KeptFrom (ledger R.ReadablePlan.meaning R.Register.left set.old).base.size labels.old labels.new }
    ensures scratch { KeptFrom (2 * (ledger R.ReadablePlan.meaning R.Register.left set.old).base.size) scratch.old scratch.new }
{
    for line in lines {
        run_line(set, line, listener, places, ring, rows, labels, scratch)?;
    }
    Ok(())
}

// Makes the call of a line on a set; a line that spells none is turned down by 7.
fn run_line<R: Register, L: Listener>(
    set: &mut Set<R>,
    line: &[u8],
    listener: &mut L,
    places: &mut [Junction],
    ring: &mut [Junction],
    rows: &mut [u64],
    labels: &mut [LabelOfVisit],
    scratch: &mut [u16],
) -> Result<(), L::Error>
    ensures heard { (spare : ℕ → ℕ) (full : ℕ → Bool) → LineRun (λ n. short n places.old ring.old rows.old labels.old scratch.old) spare full (with_set (ledger R.ReadablePlan.meaning R.Register.left set.old)) (lists_of places.old ring.old rows.old) line.now (lists_of places.new ring.new rows.new) (L.Listener.log listener.old) (L.Listener.log listener.new) (with_set (ledger R.ReadablePlan.meaning R.Register.left set.new)) }
    ensures size { (ledger R.ReadablePlan.meaning R.Register.left set.new).base.size ≡ (ledger R.ReadablePlan.meaning R.Register.left set.old).base.size }
    ensures labels { KeptFrom (ledger R.ReadablePlan.meaning R.Register.left set.old).base.size labels.old labels.new }
    ensures scratch { KeptFrom (2 * (ledger R.ReadablePlan.meaning R.Register.left set.old).base.size) scratch.old scratch.new }
{
    match set_call(line) {
        Some(call) => run(set, &[call], listener, places, ring, rows, labels, scratch),
        None => listener.hear(Err(Refusal::NoCall), Lists { places, ring, rows }),
    }
}

// The n of the line that makes a set.
fn new_size(line: &[u8]) -> Option<u16>
    ensures { NewSize line.now result }
{
    match read_call(line) {
        Some(Spelled::New(n)) => Some(n),
        _ => None,
    }
}

// The call on a set that a line spells; the line that makes a set is none. A sheet's calls are a type
// of their own: they know of a new set, of no load, and of kinds of label by their letters.
fn set_call(line: &[u8]) -> Option<Call<'_, KindOfLabel>>
    ensures { SetCall line.now result }
{
    Some(match read_call(line)? {
        Spelled::Join(v, w) => Call::Join(v, w),
        Spelled::Cut(v, w) => Call::Cut(v, w),
        Spelled::Shut(v) => Call::Shut(v),
        Spelled::Open(v) => Call::Open(v),
        Spelled::OrderLexicographic => Call::Order(Either::First(Lexicographic)),
        Spelled::OrderCounting => Call::Order(Either::Second(Counting)),
        Spelled::New(_) => return None,
    })
}
