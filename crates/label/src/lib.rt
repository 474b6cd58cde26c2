//! The labels by which a search ranks the vertices that it has not yet numbered: what a kind of
//! label has to keep, and the kinds there are.

#![tactic(auto)]

mod apart;
mod counting;
mod either;
mod kind;
mod lexicographic;

pub use apart::empty_against_raised;
pub use counting::{Count, Counting};
pub use either::Either;
pub use kind::Kind;
pub use lexicographic::{Lexicographic, MarkSet};
