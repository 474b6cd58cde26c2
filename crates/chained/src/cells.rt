//! The memory of a chained register: chains of cells, and the pairs of cells that are free.
ghost use Rattle.std.specs.Prelude.{◌≡◌, ℕ, ◌+◌, ◌*◌, ◌<◌, ◌≤◌, length, slice_index};
ghost use Rattle.chained.specs.Changes.{linked, unlinked, with_ends, with_pair, pair_behind, without_pair, LaidOut};

use plan::Junction;

/// Where a cell stands in the chain of a junction: behind `node`, a node of that chain.
#[derive(Clone, Copy)]
pub(crate) struct Seat {
    pub(crate) junction: Junction,
    pub(crate) node: u16,
}

// `cells` and `c` are handed along apart: between these steps the register's invariants do not hold,
// and a struct of both would be made anew for each of its two calls.
// Indices are cast by `as`: so each reads as the formula of the layout that it is (x + 2c), which
// `usize::from` around each number would hide.

/// Puts node x behind node s.
fn link(cells: &mut [u16], s: u16, x: u16)
    requires { (s < length cells.old) × (x < length cells.old) }
    ensures { cells.new ≡ linked cells.old s x }
{
    cells[x as usize] = cells[s as usize];
    cells[s as usize] = x;
}

/// Takes out the node behind node s.
fn unlink(cells: &mut [u16], s: u16)
    requires { (s < length cells.old) × (slice_index cells.old s < length cells.old) }
    ensures { cells.new ≡ unlinked cells.old s }
{
    let x = cells[s as usize];
    cells[s as usize] = cells[x as usize];
}

/// Writes the far ends a and b of the pair x.
fn put_ends(cells: &mut [u16], c: u16, x: u16, a: u16, b: u16)
    requires { x + 3 * c < length cells.old }
    ensures { cells.new ≡ with_ends c cells.old x a b }
{
    cells[x as usize + 2 * c as usize] = a;
    cells[x as usize + 3 * c as usize] = b;
}

/// Takes the pair x off the free pairs, puts its cells at the two seats, and answers the next
/// free pair.
pub(crate) fn add_pair(cells: &mut [u16], c: u16, x: u16, v: Seat, w: Seat) -> u16
    requires pair { (x + 3 * c < length cells.old) × (x + c < 65536) }
    requires seats { (v.node < length cells.old) × (w.node < length cells.old) }
    ensures head { result ≡ slice_index cells.old x }
    ensures cells { cells.new ≡ with_pair c cells.old x v.junction.0 v.node w.junction.0 w.node }
{
    let free = cells[x as usize];
    put_ends(cells, c, x, w.junction.0, v.junction.0);
    link(cells, v.node, x);
    link(cells, w.node, x + c);
    free
}

/// Takes out the pair behind the nodes s and t, puts it before the free pair `head`, with d free
/// pairs then, and answers the pair.
pub(crate) fn free_pair(cells: &mut [u16], c: u16, s: u16, t: u16, head: u16, d: u16) -> u16
    requires seats { (s < length cells.old) × (t < length cells.old) }
    requires nodes { (slice_index cells.old s < length cells.old) × (slice_index (unlinked cells.old s) t < length cells.old) }
    requires pair { pair_behind cells.old s t + 3 * c < length cells.old }
    ensures pair { result ≡ pair_behind cells.old s t }
    ensures cells { cells.new ≡ without_pair c cells.old s t head d }
{
    let x = cells[s as usize].min(cells[t as usize]);
    unlink(cells, s);
    unlink(cells, t);
    put_ends(cells, c, x, 0, 0);
    cells[x as usize] = head;
    cells[x as usize + c as usize] = d;
    x
}

/// Clears the first m numbers.
fn clear(cells: &mut [u16], m: usize)
    requires { m ≤ length cells.old }
    ensures cleared { (k : ℕ) → k < m → slice_index cells.new k ≡ 0 }
    ensures behind { (k : ℕ) → m ≤ k → slice_index cells.new k ≡ slice_index cells.old k }
{
    cells[0..m].fill(0);
}

/// Lays the memory out for n junctions and c pipes: empty chains, and every pair free.
pub(crate) fn lay_out(cells: &mut [u16], n: u16, c: u16)
    requires { (n ≤ 512) × ((c ≤ 8000) × (n + 4 * c ≤ length cells.old)) }
    ensures { LaidOut n c cells.old cells.new }
{
    clear(cells, n as usize + 4 * c as usize);
    // By index, since two stretches are written at each.
    for p in 0..c {
        cells[(n + p) as usize] = n + p + 1;
        cells[(n + p + c) as usize] = c - p;
    }
}
