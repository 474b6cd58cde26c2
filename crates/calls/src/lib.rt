//! Lists of calls on a set, and who hears the answers.

#![tactic(auto)]

mod answer;
mod call;
mod laws;
mod listener;
mod runner;

pub use answer::{Answer, Outcome};
pub use call::Call;
pub use laws::run_laws;
pub use listener::{Listener, Lists};
pub use runner::run;
