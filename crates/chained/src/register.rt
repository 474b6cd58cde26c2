//! The chained register as it stands in memory.

mod changing;
mod making;
mod reading;

ghost use Rattle.std.specs.Prelude.{◌≡◌, ◌+◌, ◌*◌, ◌≤◌, vec_len};
ghost use Rattle.plan.specs.Plans.{pairs};
ghost use Rattle.chained.specs.Chains.{Ascends, Complete, Single, Bounded, Paired, Apart, Counted, Distinct, FreeAt, Listed};
ghost use Rattle.chained.specs.Nodes.{next, far, owner, joined};

/// A register of n junctions, all in service, and c pipes, over n + 4c numbers of memory.
///
/// A junction's neighbours are chained in ascending order. Nodes 0 to n - 1 are the heads of the
/// chains of junctions 1 to n, and nodes n to n + 2c - 1 are cells: a pipe has a pair of them, k
/// and k + c, one in the chain of each end. The first n + 2c numbers hold for each node the next
/// one, 0 at the end of a chain (node 0 is a head, and so no next node); the other 2c hold for
/// each cell its far end, 0 in a free pair. A cell's own end is the far end of its twin.
///
/// The free pairs are a list that starts at `free`: the first cell's next node is the next pair,
/// and the second's says how many pairs are left from there on.
#[derive(Drop)]
pub struct ChainedRegister {
    n: u16,
    c: u16,
    spare: u16,
    free: u16,
    cells: Vec<u16>,
    ghost some: { 1 ≤ n },
    ghost few: { n ≤ 512 },
    ghost most: { c ≤ 8000 },
    ghost room: { n + 4 * c ≤ vec_len cells },
    ghost bounded: { Bounded n (n + 2 * c) (far n c cells.items) },
    ghost paired: { Paired n (n + 2 * c) (far n c cells.items) (owner n c cells.items) },
    ghost apart: { Apart n (n + 2 * c) (far n c cells.items) (owner n c cells.items) },
    ghost ascends: { Ascends (n + 2 * c) (next cells.items) (far n c cells.items) (owner n c cells.items) },
    ghost complete: { Complete (n + 2 * c) (next cells.items) (far n c cells.items) (owner n c cells.items) },
    ghost single: { Single (n + 2 * c) (far n c cells.items) (owner n c cells.items) },
    ghost counted: { Counted n c spare (next cells.items) (far n c cells.items) },
    ghost distinct: { Distinct n c (next cells.items) (far n c cells.items) },
    ghost listed: { Listed n c (next cells.items) (far n c cells.items) },
    ghost first: { 1 ≤ spare → FreeAt n c (next cells.items) (far n c cells.items) free spare },
    ghost filled: { spare + pairs (joined n c cells.items) n ≡ c },
}
