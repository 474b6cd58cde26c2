//! The table of states, one for each junction that a plan may have.
ghost use Rattle.std.specs.Prelude.{◌≡◌, ℕ, true, if◌then◌else◌};
ghost use Rattle.plan.specs.Plans.{within};
ghost use Rattle.isolation.specs.Layers.{marked};
ghost use Rattle.isolation.specs.States.{opens, is_open};

use plan::Junction;

/// Whether a junction is open to the layer above a register, or shut by it.
#[derive(Clone, Copy, PartialEq, Eq, Debug)]
pub enum State {
    Open,
    Shut,
}

/// 512 states: entry v − 1 is that of junction v.
#[derive(Clone, Copy)]
pub struct States {
    table: [State; 512],
}

impl States {
    /// Every junction open.
    pub fn new() -> States
        ensures { (v : ℕ) → opens result.table v ≡ true }
    {
        States {
            table: [State::Open; 512],
        }
    }

    /// Whether junction v is open; a number outside 1 to 512 is never shut.
    pub fn is_open(&self, v: Junction) -> bool
        ensures { result ≡ opens self.now.table v.0 }
    {
        !v.is_within(512) || self.table[v.index()] == State::Open
    }

    /// Changes the one entry of junction v; a number outside 1 to 512 changes nothing.
    pub fn put(&mut self, v: Junction, state: State)
        ensures { (u : ℕ) → opens self.new.table u ≡ (if within 512 v.0 then marked (opens self.old.table) v.0 (is_open state) u else opens self.old.table u) }
    {
        if v.is_within(512) {
            self.table[v.index()] = state;
        }
    }
}
