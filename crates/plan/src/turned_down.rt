//! A call turned down that was handed memory by value.
use crate::refusal::Refusal;

/// A refusal with the memory that the call was handed, given back as it was.
#[derive(Drop)]
pub struct TurnedDown<M> {
    /// Why the call is turned down.
    pub refusal: Refusal,
    /// The memory handed over.
    pub memory: M,
}
