//! What an order call answers.

/// The numbers of an order that was carried out.
#[derive(Clone, Copy)]
pub struct Report {
    /// How many fill pairs the order has.
    pub fill: u32,
    /// How many cells it needs: the pipes in service plus the fill pairs.
    pub cells: u32,
    /// The length of the ring, 0 where there is none.
    pub ring: u16,
}
