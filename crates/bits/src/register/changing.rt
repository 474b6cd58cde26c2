//! Changing a bit register, one pipe at a time.
use crate::register::BitRegister;
use plan::{Junction, ReadablePlan, Refusal, Register, check_ends};

/// The bit register as a register. Every junction is in service and every pair has room, so 11
/// and 14 do not occur.
impl Register for BitRegister {
    ghost left = { λ r. r.spare };

    fn spare(&self) -> u32 {
        self.spare
    }

    fn join(&mut self, v: Junction, w: Junction) -> Result<(), Refusal> {
        check_ends(self.n, v, w)?;
        if self.joined(v, w) {
            return Err(Refusal::JoinedAlready);
        }
        // The spare counts every pair that is not joined, this one among them, so it is not 0.
        pairs::mark(&mut self.words, v, w);
        self.spare -= 1;
        Ok(())
    }

    fn cut(&mut self, v: Junction, w: Junction) -> Result<(), Refusal> {
        check_ends(self.n, v, w)?;
        if !self.joined(v, w) {
            return Err(Refusal::NotJoined);
        }
        pairs::unmark(&mut self.words, v, w);
        self.spare += 1;
        Ok(())
    }
}
