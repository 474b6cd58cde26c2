//! What holds of every run.
ghost use Rattle.std.specs.Prelude.{◌≡◌};
ghost use Rattle.calls.specs.Laws.{RunLaws};

use label::Kind;

/// A run told by its calls and their answers: which pipes there are, which junctions are shut, the
/// spare; that nothing but the ring is left free in an answer; and that a run after a run is one
/// run. That is what the contract says. Answers 0.
pub fn run_laws<K: Kind>(kind: &K) -> u8
    ensures value { result ≡ 0 }
    ensures laws { RunLaws K.Kind.blank K.Kind.raised K.Kind.compared }
{
    0
}
