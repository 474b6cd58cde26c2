//! Small plans whose orders follow from the definitions alone.
ghost use Rattle.std.specs.Prelude.{◌≡◌};
ghost use Rattle.search.specs.Worked.{WorkedOrders};

/// The orders of one junction and of the rings of four and five; on the ring of four the two kinds
/// of label differ. That is what the contract says. Answers 0.
pub fn worked_orders() -> u8
    ensures value { result ≡ 0 }
    ensures worked { WorkedOrders }
{
    0
}
