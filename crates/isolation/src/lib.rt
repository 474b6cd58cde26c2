//! The isolation layer: any register, with junctions shut and opened above it.

#![tactic(auto)]

mod layer;
mod state;

pub use layer::Isolation;
pub use state::State;
