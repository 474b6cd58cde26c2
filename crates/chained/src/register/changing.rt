//! Changing a chained register, one pipe at a time.
use crate::cells::{Seat, add_pair, free_pair};
use crate::register::ChainedRegister;
use plan::{Junction, Refusal, Register, check_ends};

/// The chained register as a register. Every junction is in service, so 11 does not occur.
impl Register for ChainedRegister {
    ghost left = { λ r. r.spare };

    fn spare(&self) -> u32 {
        u32::from(self.spare)
    }

    fn join(&mut self, v: Junction, w: Junction) -> Result<(), Refusal> {
        check_ends(self.n, v, w)?;
        let v_found = self.find(v, w.0);
        if v_found.neighbour == Some(w) {
            return Err(Refusal::JoinedAlready);
        }
        if self.spare == 0 {
            return Err(Refusal::NoSpare);
        }
        let v_seat = Seat {
            junction: v,
            node: v_found.seat,
        };
        let w_seat = Seat {
            junction: w,
            node: self.find(w, v.0).seat,
        };
        let (c, pair) = (self.c, self.free);
        let free = add_pair(&mut self.cells, c, pair, v_seat, w_seat);
        self.free = free;
        self.spare -= 1;
        Ok(())
    }

    fn cut(&mut self, v: Junction, w: Junction) -> Result<(), Refusal> {
        check_ends(self.n, v, w)?;
        let v_found = self.find(v, w.0);
        if v_found.neighbour != Some(w) {
            return Err(Refusal::NotJoined);
        }
        let (v_seat, w_seat) = (v_found.seat, self.find(w, v.0).seat);
        let (c, free) = (self.c, self.free);
        let spare = self.spare + 1;
        let pair = free_pair(&mut self.cells, c, v_seat, w_seat, free, spare);
        self.free = pair;
        self.spare = spare;
        Ok(())
    }
}
