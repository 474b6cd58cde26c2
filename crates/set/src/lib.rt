//! A set: an isolation layer over any register, with the calls of a visit.

#![tactic(auto)]

mod laws;
mod load;
mod set;

pub use laws::{load_writes_the_pipes_of_its_image, worked_loads};
pub use set::Set;
