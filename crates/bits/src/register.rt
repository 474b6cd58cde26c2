//! The bit register as it stands in memory.

mod changing;
mod making;
mod reading;

ghost use Rattle.std.specs.Prelude.{◌≡◌, ℕ, ◌+◌, ◌*◌, ◌≤◌, false, vec_len};
ghost use Rattle.plan.specs.Plans.{pairs};
ghost use Rattle.bits.specs.Rows.{joined};

/// A register of n junctions, all in service, over 8n words of memory: row v is words 8(v - 1)
/// to 8v - 1, and its bit w - 1 says whether v and w are joined. Both (v, w) and (w, v) are
/// kept. The spare counts the pairs that are not joined.
#[derive(Drop)]
pub struct BitRegister {
    n: u16,
    spare: u32,
    words: Vec<u64>,
    ghost some: { 1 ≤ n },
    ghost few: { n ≤ 512 },
    ghost room: { 8 * n ≤ vec_len words },
    ghost alike: { (v w : ℕ) → joined n words.items v w ≡ joined n words.items w v },
    ghost apart: { (v : ℕ) → joined n words.items v v ≡ false },
    ghost counted: { 2 * (spare + pairs (joined n words.items) n) + n ≡ n * n },
}
