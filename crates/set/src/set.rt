//! The set and its calls.
ghost use Rattle.std.specs.Prelude.{◌≡◌, true, false, [], ◌∷◌};
ghost use Rattle.plan.specs.Refusals.{heard, after, checked};
ghost use Rattle.plan.specs.Registers.{join_verdict, cut_verdict};
ghost use Rattle.order.specs.Reports.{OrderCall, short};
ghost use Rattle.set.specs.Kept.{ledger};
ghost use Rattle.set.specs.Ledgers.{opened, seen, with_joined, with_cut, with_shut, shut_checks, open_checks};

use isolation::Isolation;
use label::Kind;
use order::{Report, order};
use plan::{Junction, ReadablePlan, Refusal, Register};

/// An isolation layer over a register. It is new while the register has no pipe and the layer has
/// nothing shut.
// Contracts name its ledger by the register's meaning each time: a model that showed the ledger
// itself is refused, since a ledger holds functions and a model's value must not.
#[derive(Drop)]
pub struct Set<R> {
    pub(crate) layer: Isolation<R>,
}

impl<R: Register> Set<R> {
    /// The set over a register, with every junction open.
    pub fn new(register: R) -> Set<R>
        ensures { ledger R.ReadablePlan.meaning R.Register.left result ≡ opened (R.ReadablePlan.meaning register) (R.Register.left register) }
    {
        Set {
            layer: Isolation::new(register),
        }
    }

    /// n, the number of junctions.
    pub fn size(&self) -> u16
        ensures { result ≡ (ledger R.ReadablePlan.meaning R.Register.left self.now).base.size }
    {
        self.layer.size()
    }

    /// Adds the pipe v, w. Turned down by 2, 3, 11, 12, 14, and then nothing is changed.
    pub fn join(&mut self, v: Junction, w: Junction) -> Result<(), Refusal>
        ensures answer { heard result ≡ join_verdict (seen (ledger R.ReadablePlan.meaning R.Register.left self.old)) (ledger R.ReadablePlan.meaning R.Register.left self.old).spare v.0 w.0 }
        ensures ledger { ledger R.ReadablePlan.meaning R.Register.left self.new ≡ after (heard result) (with_joined (ledger R.ReadablePlan.meaning R.Register.left self.old) v.0 w.0) (ledger R.ReadablePlan.meaning R.Register.left self.old) }
    {
        self.layer.join(v, w)
    }

    /// Removes the pipe v, w. Turned down by 2, 3, 11, 13, and then nothing is changed.
    pub fn cut(&mut self, v: Junction, w: Junction) -> Result<(), Refusal>
        ensures answer { heard result ≡ cut_verdict (seen (ledger R.ReadablePlan.meaning R.Register.left self.old)) v.0 w.0 }
        ensures ledger { ledger R.ReadablePlan.meaning R.Register.left self.new ≡ after (heard result) (with_cut (ledger R.ReadablePlan.meaning R.Register.left self.old) v.0 w.0) (ledger R.ReadablePlan.meaning R.Register.left self.old) }
    {
        self.layer.cut(v, w)
    }

    /// Shuts junction v. Turned down by 2, then 15, and then nothing is changed.
    pub fn shut(&mut self, v: Junction) -> Result<(), Refusal>
        ensures answer { heard result ≡ shut_checks (ledger R.ReadablePlan.meaning R.Register.left self.old) v.0 }
        ensures ledger { ledger R.ReadablePlan.meaning R.Register.left self.new ≡ after (heard result) (with_shut (ledger R.ReadablePlan.meaning R.Register.left self.old) v.0 true) (ledger R.ReadablePlan.meaning R.Register.left self.old) }
    {
        self.layer.shut(v)
    }

    /// Opens junction v again. Turned down by 2, then 16, and then nothing is changed.
    pub fn open(&mut self, v: Junction) -> Result<(), Refusal>
        ensures answer { heard result ≡ open_checks (ledger R.ReadablePlan.meaning R.Register.left self.old) v.0 }
        ensures ledger { ledger R.ReadablePlan.meaning R.Register.left self.new ≡ after (heard result) (with_shut (ledger R.ReadablePlan.meaning R.Register.left self.old) v.0 false) (ledger R.ReadablePlan.meaning R.Register.left self.old) }
    {
        self.layer.open(v)
    }

    /// Finds the order in which the junctions in the set are eliminated, by a kind of label, with
    /// its fill and a ring where it has any: see `order::order`. Turned down by 8 alone.
    pub fn order<K: Kind>(
        &self,
        kind: &K,
        places: &mut [Junction],
        ring: &mut [Junction],
        rows: &mut [u64],
        labels: &mut [K::Label],
        scratch: &mut [u16],
    ) -> Result<Report, Refusal>
        ensures verdict { heard result ≡ checked ((short (ledger R.ReadablePlan.meaning R.Register.left self.now).base.size places.old ring.old rows.old labels.old scratch.old, 8) ∷ []) }
        ensures left { OrderCall (K.Kind.blank kind.now) (K.Kind.raised kind.now) (K.Kind.compared kind.now) (seen (ledger R.ReadablePlan.meaning R.Register.left self.now)) result places.old ring.old rows.old labels.old scratch.old places.new ring.new rows.new labels.new scratch.new }
    {
        order(&self.layer, kind, places, ring, rows, labels, scratch)
    }
}
