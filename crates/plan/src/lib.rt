//! The vocabulary of the library: junction numbers and places, refusals, and the traits of a
//! readable plan and of a register.

#![tactic(auto)]

mod counting;
mod ends;
mod number;
mod readable;
mod refusal;
mod register;
mod turned_down;
mod walk;

pub use counting::pipes;
pub use ends::check_ends;
pub use number::{Junction, Place};
pub use readable::ReadablePlan;
pub use refusal::Refusal;
pub use register::Register;
pub use turned_down::TurnedDown;
pub use walk::{Walk, neighbours, neighbours_above};
