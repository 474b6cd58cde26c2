//! Vertex elimination: the fill of an order of elimination.

#![tactic(auto)]

mod elimination;
mod order;
mod step;
#[cfg(test)]
mod tests;
mod theorems;

pub use elimination::fill;
pub use plan::pipes;
pub use theorems::{no_fill_law, path_law, worked_plans};
