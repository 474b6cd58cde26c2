//! The order of elimination of a plan, with its fill and a ring where it has any.

#![tactic(auto)]

mod call;
mod report;

pub use call::order;
pub use report::Report;
