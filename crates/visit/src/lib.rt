//! A visit whose course is told by the ledger: a sheet of calls made, line by line, on a set over
//! any register, with what the listener was told of each line.

#![tactic(auto)]

mod listing;
mod maker;
mod run;

pub use calls::{Answer, Listener, Lists, Outcome};
pub use listing::Listing;
pub use maker::{Maker, StatedMaker};
pub use run::{KindOfLabel, LabelOfVisit, SHEET_LIMIT, stated_visit, visit};
