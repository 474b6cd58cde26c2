//! The edge of a program: its input, from standard input or from the file that it is named, and the
//! memory that it hands to the library.

#![tactic(auto)]

ghost use Rattle.std.specs.Prelude.{◌≡◌, ℕ, ◌<◌, ◌≤◌, IfOk, vec_len, slice_index_or};

use std::alloc::{AllocError, Global};
use std::io::Read;
use std::{env, fs, io};

/// The bytes of the file that the program's one argument names, or of standard input where it has
/// none: at most `limit` of them, so that it ends on an endless input too.
pub fn read_input(rt: &HostRuntime, limit: u64) -> io::Result<Vec<u8>>
    ensures { IfOk result (λ v. vec_len v ≤ limit) }
{
    match env::args(rt)?.nth(1) {
        Some(name) => first_bytes(rt.alloc(), fs::open(rt, name.as_str())?, limit),
        None => first_bytes(rt.alloc(), rt.stdin(), limit),
    }
}

// What the reader gives, cut after `limit` bytes.
fn first_bytes<R: Read + Drop>(heap: Global, reader: R, limit: u64) -> io::Result<Vec<u8>>
    ensures { IfOk result (λ v. vec_len v ≤ limit) }
{
    let mut bytes = Vec::new(heap);
    let _ = reader.take(limit).read_to_end(&mut bytes)?;
    bytes.truncate(limit as usize);
    Ok(bytes)
}

/// Memory of `count` entries, each the value.
pub fn filled<T: Copy>(heap: Global, value: T, count: usize) -> Result<Vec<T>, AllocError>
    ensures long { IfOk result (λ v. vec_len v ≡ count) }
    ensures each { IfOk result (λ v. (k : ℕ) (d : T) → k < count → slice_index_or v.items k d ≡ value) }
{
    // Not `vec!`, which clones the value: no bound says that a clone of it is the same.
    (0..count).map(|_| value).collect(heap)
}

/// Memory of `count` entries, each the value; or of none, where there is no memory for them.
pub fn filled_or_empty<T: Copy>(heap: Global, value: T, count: usize) -> Vec<T>
    ensures { ((vec_len result ≡ count) → ⊥) → vec_len result ≡ 0 }
{
    filled(heap, value, count).unwrap_or_else(|_| Vec::new(heap))
}
