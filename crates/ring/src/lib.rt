//! The search for a ring: a chordless cycle of four or more junctions.
//!
//! A ring is found at its lowest junction v, from the lower of v's two neighbours in it, a: a
//! breadth-first search from a, through junctions above v that are not joined to v, reaches a
//! junction that is joined to the other neighbour, c.

#![tactic(auto)]

mod find;
mod reach;
mod reached;

pub use find::find_ring;
