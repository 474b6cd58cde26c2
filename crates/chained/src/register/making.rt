//! Making a chained register.
ghost use Rattle.chained.specs.Making.{Making};

use crate::cells::lay_out;
use crate::register::ChainedRegister;
use plan::{Refusal, TurnedDown};

impl ChainedRegister {
    /// A register of n junctions, all in service, with no pipe and c to spare, in n + 4c numbers.
    /// Turned down by 1, 8, in this order, and then the memory is given back unchanged.
    pub fn new(
        n: u16,
        c: u16,
        mut memory: Vec<u16>,
    ) -> Result<ChainedRegister, TurnedDown<Vec<u16>>>
        ensures { Making n c memory result }
    {
        // As in the other register but for the bounds: a shared check would take the memory in and
        // hand it out again.
        if n == 0 || n > 512 || c > 8000 {
            return Err(TurnedDown {
                refusal: Refusal::Size,
                memory,
            });
        }
        if memory.len() < usize::from(n) + 4 * usize::from(c) {
            return Err(TurnedDown {
                refusal: Refusal::ShortMemory,
                memory,
            });
        }
        lay_out(&mut memory, n, c);
        Ok(ChainedRegister {
            n,
            c,
            spare: c,
            free: n,
            cells: memory,
        })
    }
}
