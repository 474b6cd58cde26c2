//! The isolation layer over any register, itself a register.
ghost use Rattle.std.specs.Prelude.{◌≡◌, ℕ, ◌≤◌, true, false};
ghost use Rattle.plan.specs.Refusals.{heard, after};
ghost use Rattle.plan.specs.Registers.{Joins, Cuts, with_pipe, without_pipe};
ghost use Rattle.isolation.specs.Layers.{through, marked, shut_verdict, open_verdict, isolates_pair};
ghost use Rattle.isolation.specs.States.{opens, is_open, put_verdict};
ghost use Rattle.isolation.specs.Seen.{through_sound};

use crate::state::{State, States};
use plan::{Junction, ReadablePlan, Refusal, Register, check_ends, neighbours_above};

/// A register with a table of states above it. A junction is in service through the layer when it
/// is in service below and open here; its pipes are those below with both ends in service through
/// it; its spare is the spare below.
#[derive(Drop)]
pub struct Isolation<R> {
    below: R,
    states: States,
}

impl<R: Register> Isolation<R> {
    /// The layer over a register, with every junction open.
    pub fn new(below: R) -> Isolation<R>
        ensures register { result.below ≡ below }
        ensures states { (v : ℕ) → opens result.states.table v ≡ true }
    {
        Isolation {
            below,
            states: States::new(),
        }
    }

    /// Whether v is open here, whatever its service below; a number outside 1 to 512 is never shut.
    pub fn is_open(&self, v: Junction) -> bool
        ensures { result ≡ opens self.now.states.table v.0 }
    {
        self.states.is_open(v)
    }

    // Whether v and w are two different junctions of which the layer shuts one: what the layer
    // has to say of a pair before the register below is asked.
    fn isolates(&self, v: Junction, w: Junction) -> bool
        ensures { result ≡ isolates_pair (R.ReadablePlan.meaning self.now.below) (opens self.now.states.table) v.0 w.0 }
    {
        check_ends(self.below.size(), v, w).is_ok()
            && (!self.states.is_open(v) || !self.states.is_open(w))
    }

    /// Shuts junction v: it is out of service until it is opened. Turned down by 2, then 15.
    pub fn shut(&mut self, v: Junction) -> Result<(), Refusal>
        ensures answer { heard result ≡ shut_verdict (R.ReadablePlan.meaning self.old.below).size (opens self.old.states.table) v.0 }
        ensures register { self.new.below ≡ self.old.below }
        ensures states { (u : ℕ) → opens self.new.states.table u ≡ after (heard result) (marked (opens self.old.states.table) v.0 false u) (opens self.old.states.table u) }
    {
        self.put(v, State::Shut)
    }

    /// Opens junction v again. Turned down by 2, then 16.
    pub fn open(&mut self, v: Junction) -> Result<(), Refusal>
        ensures answer { heard result ≡ open_verdict (R.ReadablePlan.meaning self.old.below).size (opens self.old.states.table) v.0 }
        ensures register { self.new.below ≡ self.old.below }
        ensures states { (u : ℕ) → opens self.new.states.table u ≡ after (heard result) (marked (opens self.old.states.table) v.0 true u) (opens self.old.states.table u) }
    {
        self.put(v, State::Open)
    }

    // Puts junction v into a state. Turned down by 2, then by 15 or 16 where it has that state.
    fn put(&mut self, v: Junction, state: State) -> Result<(), Refusal>
        ensures answer { heard result ≡ put_verdict (R.ReadablePlan.meaning self.old.below).size (opens self.old.states.table) v.0 state }
        ensures register { self.new.below ≡ self.old.below }
        ensures states { (u : ℕ) → opens self.new.states.table u ≡ after (heard result) (marked (opens self.old.states.table) v.0 (is_open state) u) (opens self.old.states.table u) }
    {
        if !v.is_within(self.below.size()) {
            return Err(Refusal::NoJunction);
        }
        match (state, self.states.is_open(v)) {
            (State::Shut, false) => return Err(Refusal::ShutAlready),
            (State::Open, true) => return Err(Refusal::NotShut),
            (State::Shut, true) | (State::Open, false) => self.states.put(v, state),
        }
        Ok(())
    }
}

impl<R: Register> ReadablePlan for Isolation<R> {
    ghost meaning = { λ l. through (R.ReadablePlan.meaning l.below) (opens l.states.table) };

    ghost sound = { λ l. through_sound (R.ReadablePlan.meaning l.below) (opens l.states.table) (R.ReadablePlan.sound l.below) };

    fn size(&self) -> u16 {
        self.below.size()
    }

    fn serves(&self, v: Junction) -> bool {
        self.below.serves(v) && self.states.is_open(v)
    }

    fn joined(&self, v: Junction, w: Junction) -> bool {
        self.below.joined(v, w) && self.states.is_open(v) && self.states.is_open(w)
    }

    fn next(&self, v: Junction, w: Junction) -> Option<Junction> {
        if !self.states.is_open(v) {
            return None;
        }
        neighbours_above(&self.below, v, w).find(|u| self.states.is_open(*u))
    }
}

impl<R: Register> Register for Isolation<R> {
    ghost left = { λ l. R.Register.left l.below };

    fn spare(&self) -> u32 {
        self.below.spare()
    }

    fn join(&mut self, v: Junction, w: Junction) -> Result<(), Refusal>
        ensures joins { Joins (through (R.ReadablePlan.meaning self.old.below) (opens self.old.states.table)) (R.Register.left self.old.below) v.0 w.0 (heard result) (through (R.ReadablePlan.meaning self.new.below) (opens self.new.states.table)) (R.Register.left self.new.below) }
        ensures below { R.ReadablePlan.meaning self.new.below ≡ after (heard result) (with_pipe (R.ReadablePlan.meaning self.old.below) v.0 w.0) (R.ReadablePlan.meaning self.old.below) }
        ensures states { self.new.states ≡ self.old.states }
    {
        if self.isolates(v, w) {
            return Err(Refusal::OutOfService);
        }
        self.below.join(v, w)
    }

    fn cut(&mut self, v: Junction, w: Junction) -> Result<(), Refusal>
        ensures cuts { Cuts (through (R.ReadablePlan.meaning self.old.below) (opens self.old.states.table)) (R.Register.left self.old.below) v.0 w.0 (heard result) (through (R.ReadablePlan.meaning self.new.below) (opens self.new.states.table)) (R.Register.left self.new.below) }
        ensures below { R.ReadablePlan.meaning self.new.below ≡ after (heard result) (without_pipe (R.ReadablePlan.meaning self.old.below) v.0 w.0) (R.ReadablePlan.meaning self.old.below) }
        ensures states { self.new.states ≡ self.old.states }
    {
        if self.isolates(v, w) {
            return Err(Refusal::OutOfService);
        }
        self.below.cut(v, w)
    }
}
