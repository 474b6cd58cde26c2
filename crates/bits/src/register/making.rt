//! Making a bit register.
ghost use Rattle.bits.specs.Making.{Making};

use crate::register::BitRegister;
use pairs::ROW;
use plan::{Refusal, TurnedDown};

impl BitRegister {
    /// A register of n junctions, all in service, with no pipe. Turned down by 1, 8, in this
    /// order, and then the memory is given back unchanged.
    pub fn new(n: u16, mut memory: Vec<u64>) -> Result<BitRegister, TurnedDown<Vec<u64>>>
        ensures { Making n memory result }
    {
        // As in the other register but for the bounds: a shared check would take the memory in and
        // hand it out again.
        if n == 0 || n > 512 {
            return Err(TurnedDown {
                refusal: Refusal::Size,
                memory,
            });
        }
        if memory.len() < ROW * usize::from(n) {
            return Err(TurnedDown {
                refusal: Refusal::ShortMemory,
                memory,
            });
        }
        pairs::clear(&mut memory, n);
        let junctions = u32::from(n);
        Ok(BitRegister {
            n,
            spare: junctions * (junctions - 1) / 2,
            words: memory,
        })
    }
}
