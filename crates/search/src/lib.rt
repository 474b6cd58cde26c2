//! One search for every readable plan and every kind of label: it orders the junctions of a plan
//! for vertex elimination.

#![tactic(auto)]

mod either_search;
mod examples;
mod late_neighbour;
mod order;
mod unique_order;

pub use either_search::either_searches_by_its_choice;
pub use examples::worked_orders;
pub use late_neighbour::late_neighbours;
pub use order::search;
pub use unique_order::at_most_one_order;
