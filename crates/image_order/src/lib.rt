//! The order of the plan that an image stands for.

#![tactic(auto)]

mod call;
mod first;

pub use call::{PIPES, order_image};
