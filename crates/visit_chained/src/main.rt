//! A visit over the chained register: reads a sheet, prints the listing.

#![tactic(auto)]

ghost use Rattle.std.specs.Prelude.{◌+◌, vec_len, nat_lt};
ghost use Rattle.chained.specs.Making.{plan_of};
ghost use Rattle.visit.specs.Visits.{Making};

use chained::ChainedRegister;
use edge::filled_or_empty;
use plan::TurnedDown;
use printer::print_stated_visit;
use std::io;
use visit::{Maker, StatedMaker};

// The most pipes that the register of a visit takes. `image_order` has this number too, of its own:
// to share it, a program would depend on a crate that it needs for nothing else.
const PIPES: u16 = 8000;

// Makes a chained register of 8,000 pipes in the memory that it holds.
// It is like the maker of `visit_bits`, but states another spare and another bound of memory: one
// generic maker would take both by a trait of its own, and each program still write its impl.
#[derive(Drop)]
struct ChainedMaker {
    memory: Vec<u16>,
}

impl Maker for ChainedMaker {
    type Made = ChainedRegister;

    ghost makes = { Making plan_of (λ r. r.spare) (λ _ n. 8000) (λ m n. nat_lt (vec_len m.memory) (n + 32000)) };

    fn make(self, n: u16) -> Result<ChainedRegister, TurnedDown<ChainedMaker>> {
        ChainedRegister::new(n, PIPES, self.memory).map_err(|turned| TurnedDown {
            refusal: turned.refusal,
            memory: ChainedMaker {
                memory: turned.memory,
            },
        })
    }
}

impl StatedMaker for ChainedMaker {
    ghost spare = { λ _ n. 8000 };

    ghost full = { λ m n. nat_lt (vec_len m.memory) (n + 32000) };

    ghost stated = { λ maker n r made. made };
}

// Prints the listing of the sheet that standard input, or the file named, has. Without memory for
// 512 junctions the maker holds none, and every set is turned down.
fn main(rt: HostRuntime) -> io::Result<()> {
    let maker = ChainedMaker {
        memory: filled_or_empty(rt.alloc(), 0, 512 + 4 * usize::from(PIPES)),
    };
    print_stated_visit(&rt, maker)
}
