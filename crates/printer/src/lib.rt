//! A visit at the edge of a program: the sheet comes from its input, and the listing is printed.

#![tactic(auto)]

ghost use Rattle.std.specs.Prelude.{List};
ghost use Rattle.calls.specs.Heard.{Heard};

use calls::{Answer, Listener, Lists};
use edge::{filled, read_input};
use label::{Count, Either};
use plan::Junction;
use std::io;
use visit::{Listing, Maker, SHEET_LIMIT, StatedMaker, stated_visit, visit};

/// Prints each answer, as the lines of a listing. It keeps nothing of what it was told, so that it
/// may have been told anything.
#[derive(Drop)]
pub struct Printer<'a> {
    /// Where it prints.
    pub rt: &'a HostRuntime,
}

impl Listener for Printer<'_> {
    type Error = io::Error;

    ghost log = { λ _ _. Unit {0} };

    fn hear(&mut self, answer: Answer, lists: Lists<'_>) -> io::Result<()> {
        let listing = Listing { answer, lists };
        print!(self.rt; "{listing}")
    }
}

/// Makes the visit of the sheet that the program's input has, on a set over the maker's register,
/// and prints its listing. The memory for orders is taken once, for 512 junctions.
pub fn print_visit<M: Maker + Drop>(rt: &HostRuntime, maker: M) -> io::Result<()> {
    let heap = rt.alloc();
    // One byte more than a sheet can have, so that a longer input is turned down as too long.
    let sheet = read_input(rt, SHEET_LIMIT as u64 + 1)?;
    let mut places = filled(heap, Junction(0), 512)?;
    let mut ring = filled(heap, Junction(0), 512)?;
    let mut rows = filled(heap, 0u64, 8 * 512)?;
    let mut labels = filled(heap, Either::Second(Count(0)), 512)?;
    let mut scratch = filled(heap, 0u16, 2 * 512)?;
    let mut printer = Printer { rt };
    visit(
        &sheet,
        maker,
        &mut printer,
        &mut places,
        &mut ring,
        &mut rows,
        &mut labels,
        &mut scratch,
    )
}

/// Makes and prints a visit as [`print_visit`] does, by a maker whose registers are made as it
/// states: the visit is then what [`stated_visit`] promises.
// A body of its own: `print_visit` has no clause to take that promise from.
pub fn print_stated_visit<M: StatedMaker + Drop>(rt: &HostRuntime, maker: M) -> io::Result<()> {
    let heap = rt.alloc();
    // One byte more than a sheet can have, so that a longer input is turned down as too long.
    let sheet = read_input(rt, SHEET_LIMIT as u64 + 1)?;
    let mut places = filled(heap, Junction(0), 512)?;
    let mut ring = filled(heap, Junction(0), 512)?;
    let mut rows = filled(heap, 0u64, 8 * 512)?;
    let mut labels = filled(heap, Either::Second(Count(0)), 512)?;
    let mut scratch = filled(heap, 0u16, 2 * 512)?;
    let mut printer = Printer { rt };
    stated_visit(
        &sheet,
        maker,
        &mut printer,
        &mut places,
        &mut ring,
        &mut rows,
        &mut labels,
        &mut scratch,
    )
}
