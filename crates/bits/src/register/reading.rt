//! Reading a bit register.
ghost use Rattle.bits.specs.Making.{plan_of};
ghost use Rattle.std.proofs.Common.{rules};

use crate::register::BitRegister;
use plan::{Junction, ReadablePlan};

/// The bit register as a readable plan.
impl ReadablePlan for BitRegister {
    ghost meaning = { plan_of };

    ghost sound = { Prim.search rules };

    fn size(&self) -> u16 {
        self.n
    }

    fn serves(&self, v: Junction) -> bool {
        v.is_within(self.n)
    }

    fn joined(&self, v: Junction, w: Junction) -> bool {
        v.is_within(self.n) && w.is_within(self.n) && pairs::is_marked(&self.words, v, w)
    }

    fn next(&self, v: Junction, w: Junction) -> Option<Junction> {
        if !v.is_within(self.n) {
            return None;
        }
        // A row has bits for 512 junctions, and those past n stand for none.
        pairs::next_marked(&self.words, v, w).filter(|u| u.is_within(self.n))
    }
}
