//! The bit register: a register that keeps its pipes as rows of bits.

#![tactic(auto)]

mod register;
#[cfg(test)]
mod tests;

pub use register::BitRegister;
