//! What is answered to a call.
use order::Report;
use plan::Refusal;

/// What a call comes to that is carried out: a change says no more, and an order has the number of
/// its junctions and its report.
#[derive(Clone, Copy)]
pub enum Outcome {
    Done,
    // With n, since of the lists handed over n entries are in use.
    Ordered(u16, Report),
}

/// The answer to a call: what it came to, or the refusal by which it was turned down.
pub type Answer = Result<Outcome, Refusal>;
