//! The visit sheet: lines of bytes, their fields, and the calls that they spell.

#![tactic(auto)]

mod call;
mod field;
mod laws;
mod line;

pub use call::{Call, read_call};
pub use field::{Field, read_field};
pub use laws::spelling_laws;
pub use line::{Lines, next_line};
