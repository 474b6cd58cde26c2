//! The search: places are given from the last down, each to the junction that outranks the others
//! that have none yet.
ghost use Rattle.std.specs.Prelude.{◌≡◌, ℕ, ◌+◌, ◌-◌, ◌*◌, ◌<◌, ◌≤◌, [], ◌∷◌, length, ◌≢◌, slice_index, slice_index_or, slice_set};
ghost use Rattle.std.specs.List.{swap};
ghost use Rattle.plan.specs.Refusals.{heard, checked};
ghost use Rattle.plan.specs.Memory.{KeptFrom};
ghost use Rattle.search.specs.Memory.{Leaves, short};
ghost use Rattle.search.specs.Rule.{outranks};
ghost use Rattle.search.specs.Working.{at, Chosen, RaisedBy};

use label::Kind;
use plan::{Junction, Place, ReadablePlan, Refusal, neighbours};

// Places, labels and scratch are tables side by side, since the memory is handed over and stays as it
// was behind what is used.

/// Puts every junction at the place of its number, with an empty label.
fn start<K: Kind>(
    kind: &K,
    n: usize,
    places: &mut [Junction],
    labels: &mut [K::Label],
    scratch: &mut [u16],
)
    requires few { n ≤ 512 }
    requires room { (n ≤ length places.old) × ((n ≤ length labels.old) × (n ≤ length scratch.old)) }
    ensures numbered { (i : ℕ) → i < n → at places.new i ≡ i + 1 }
    ensures placed { (i : ℕ) → i < n → slice_index scratch.new i ≡ i + 1 }
    ensures labelled { (i : ℕ) (d : K.Label) → i < n → slice_index_or labels.new i d ≡ K.Kind.blank kind.now }
    ensures behind { KeptFrom n places.old places.new × KeptFrom n labels.old labels.new × KeptFrom n scratch.old scratch.new }
{
    // By index, since three tables are written at each; `fill` for the labels asks that a copy cannot
    // fail, which a kind does not say.
    for i in 0..n {
        places[i] = Junction((i + 1) as u16);
        labels[i] = kind.empty();
        scratch[i] = (i + 1) as u16;
    }
}

/// Whether u outranks v.
fn is_before<K: Kind>(kind: &K, u: Junction, v: Junction, labels: &[K::Label]) -> bool
    requires left { (1 ≤ u.0) × (u.0 ≤ length labels.now) }
    requires right { (1 ≤ v.0) × (v.0 ≤ length labels.now) }
    ensures { (d : K.Label) → result ≡ outranks (K.Kind.compared kind.now (slice_index_or labels.now (v.0 - 1) d) (slice_index_or labels.now (u.0 - 1) d)) u.0 v.0 }
{
    kind.compare(&labels[v.index()], &labels[u.index()])
        .then(u.cmp(&v))
        .is_lt()
}

/// The index, up to p, of the junction that outranks the others up to there.
fn choose<K: Kind>(kind: &K, p: usize, places: &[Junction], labels: &[K::Label]) -> usize
    requires room { p < length places.now }
    requires each { (i : ℕ) → i ≤ p → (1 ≤ at places.now i) × (at places.now i ≤ length labels.now) }
    requires apart { (i j : ℕ) → i < j → j ≤ p → at places.now i ≢ at places.now j }
    ensures { Chosen (K.Kind.compared kind.now) places.now labels.now p result }
{
    // By index, since the index of the best is what is answered.
    let mut best = 0;
    for i in 1..p + 1 {
        if is_before(kind, places[i], places[best], labels) {
            best = i;
        }
    }
    best
}

/// Exchanges the junctions at indices a and p, and notes their new places.
fn exchange(places: &mut [Junction], scratch: &mut [u16], a: usize, p: usize)
    requires room { (a < length places.old) × (p < length places.old) }
    requires few { (a < 512) × (p < 512) }
    requires at_a { (1 ≤ at places.old a) × (at places.old a ≤ length scratch.old) }
    requires at_p { (1 ≤ at places.old p) × (at places.old p ≤ length scratch.old) }
    ensures places { places.new ≡ swap places.old a p }
    ensures scratch { scratch.new ≡ slice_set (slice_set scratch.old (at places.old p - 1) (a + 1)) (at places.old a - 1) (p + 1) }
{
    let rising = places[a];
    let falling = places[p];
    places.swap(a, p);
    scratch[falling.index()] = (a + 1) as u16;
    scratch[rising.index()] = (p + 1) as u16;
}

/// Raises the labels of u's neighbours of lower places by the place that u is given.
fn raise_neighbours<P: ReadablePlan, K: Kind>(
    plan: &P,
    kind: &K,
    u: Junction,
    place: Place,
    scratch: &[u16],
    labels: &mut [K::Label],
)
    requires room { ((P.ReadablePlan.meaning plan.now).size ≤ length labels.old) × ((P.ReadablePlan.meaning plan.now).size ≤ length scratch.now) }
    ensures { RaisedBy (K.Kind.raised kind.now) (P.ReadablePlan.meaning plan.now).joins u.0 place.0 (P.ReadablePlan.meaning plan.now).size scratch.now labels.old labels.new }
{
    for v in neighbours(plan, u) {
        let i = v.index();
        if scratch[i] < place.0 {
            labels[i] = kind.raise(labels[i], place);
        }
    }
}

/// Orders the junctions of a plan: entry i of `places` is the junction of place i + 1. The first n
/// labels and 2 n entries of scratch are left in any state. Turned down by 8 where memory is short,
/// and then nothing is changed.
pub fn search<P: ReadablePlan, K: Kind>(
    plan: &P,
    kind: &K,
    places: &mut [Junction],
    labels: &mut [K::Label],
    scratch: &mut [u16],
) -> Result<(), Refusal>
    ensures verdict { heard result ≡ checked ((short (P.ReadablePlan.meaning plan.now).size places.old labels.old scratch.old, 8) ∷ []) }
    ensures left { Leaves (K.Kind.blank kind.now) (K.Kind.raised kind.now) (K.Kind.compared kind.now) (P.ReadablePlan.meaning plan.now) places.old labels.old scratch.old (heard result) places.new labels.new scratch.new }
{
    let n = usize::from(plan.size());
    if places.len() < n || labels.len() < n || scratch.len() < 2 * n {
        return Err(Refusal::ShortMemory);
    }
    start(kind, n, places, labels, scratch);
    for p in (0..n).rev() {
        let best = choose(kind, p, places, labels);
        exchange(places, scratch, best, p);
        raise_neighbours(
            plan,
            kind,
            places[p],
            Place((p + 1) as u16),
            scratch,
            labels,
        );
    }
    Ok(())
}
