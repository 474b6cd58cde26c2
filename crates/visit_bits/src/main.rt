//! A visit over the bit register: reads a sheet, prints the listing.

#![tactic(auto)]

#[cfg(test)]
mod tests;

ghost use Rattle.std.specs.Prelude.{◌-◌, ◌*◌, ◌/◌, vec_len, nat_lt};
ghost use Rattle.bits.specs.Making.{plan_of};
ghost use Rattle.visit.specs.Visits.{Making};

use bits::BitRegister;
use edge::filled_or_empty;
use plan::TurnedDown;
use printer::print_stated_visit;
use std::io;
use visit::{Maker, StatedMaker};

// Makes a bit register in the memory that it holds.
// It is like the maker of `visit_chained`, but states another spare and another bound of memory: one
// generic maker would take both by a trait of its own, and each program still write its impl.
#[derive(Drop)]
struct BitMaker {
    memory: Vec<u64>,
}

impl Maker for BitMaker {
    type Made = BitRegister;

    ghost makes = { Making plan_of (λ r. r.spare) (λ _ n. n * (n - 1) / 2) (λ m n. nat_lt (vec_len m.memory) (8 * n)) };

    fn make(self, n: u16) -> Result<BitRegister, TurnedDown<BitMaker>> {
        BitRegister::new(n, self.memory).map_err(|turned| TurnedDown {
            refusal: turned.refusal,
            memory: BitMaker {
                memory: turned.memory,
            },
        })
    }
}

impl StatedMaker for BitMaker {
    ghost spare = { λ _ n. n * (n - 1) / 2 };

    ghost full = { λ m n. nat_lt (vec_len m.memory) (8 * n) };

    ghost stated = { λ maker n r made. made };
}

// Prints the listing of the sheet that standard input, or the file named, has. Without memory for
// 512 junctions the maker holds none, and every set is turned down.
fn main(rt: HostRuntime) -> io::Result<()> {
    let maker = BitMaker {
        memory: filled_or_empty(rt.alloc(), 0, 8 * 512),
    };
    print_stated_visit(&rt, maker)
}
