//! The chained register: a register that keeps its pipes in chained cells.

#![tactic(auto)]

mod cells;
mod register;
#[cfg(test)]
mod tests;

pub use register::ChainedRegister;
