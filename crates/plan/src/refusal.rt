//! Why a call is turned down.
ghost use Rattle.std.specs.Prelude.{◌≡◌, decimal, Some};
ghost use Rattle.plan.specs.Refusals.{number};

use crate::number::Junction;
use std::error::Error;
use std::fmt;

/// The refusals, one for each stated number (docs/REFUSALS.md).
#[derive(Clone, Copy, PartialEq, Eq, Debug)]
pub enum Refusal {
    /// 1: n is not 1 to 512, or the number of pipes that a register is made for is above 8,000.
    Size,
    /// 2: a junction is 0 or above n.
    NoJunction,
    /// 3: both ends are one junction.
    OneJunction,
    /// 4: the length of an image.
    ImageLength,
    /// 5: the header of an image.
    ImageHeader,
    /// 6: a chain fault, with the junction of the first faulty chain, or 0 where only records
    /// that no chain reaches remain.
    ChainFault(Junction),
    /// 7: the line is no call.
    NoCall,
    /// 8: memory handed over is too short.
    ShortMemory,
    /// 9: the list handed in is not exactly n entries, each of 1 to n once.
    NoOrder,
    /// 11: an end is out of service.
    OutOfService,
    /// 12: joined already.
    JoinedAlready,
    /// 13: not joined.
    NotJoined,
    /// 14: the spare is 0, or for a load below its number of records.
    NoSpare,
    /// 15: shut here already.
    ShutAlready,
    /// 16: not shut here.
    NotShut,
    /// 17: a load onto pipes, or with a junction out of service.
    NotNew,
    /// 18: the image has another n.
    OtherSize,
    /// 19: more than 8,000 pipes to write.
    TooManyPipes,
}

impl Refusal {
    /// The stated number of the refusal.
    pub fn code(self) -> u8
        ensures { result ≡ number self }
    {
        match self {
            Refusal::Size => 1,
            Refusal::NoJunction => 2,
            Refusal::OneJunction => 3,
            Refusal::ImageLength => 4,
            Refusal::ImageHeader => 5,
            Refusal::ChainFault(_) => 6,
            Refusal::NoCall => 7,
            Refusal::ShortMemory => 8,
            Refusal::NoOrder => 9,
            Refusal::OutOfService => 11,
            Refusal::JoinedAlready => 12,
            Refusal::NotJoined => 13,
            Refusal::NoSpare => 14,
            Refusal::ShutAlready => 15,
            Refusal::NotShut => 16,
            Refusal::NotNew => 17,
            Refusal::OtherSize => 18,
            Refusal::TooManyPipes => 19,
        }
    }
}

/// A refusal is shown by its stated number.
impl fmt::Display for Refusal {
    ghost output = { λ r. Some (decimal (number r)) };

    fn fmt<W: fmt::Write>(&self, f: &mut fmt::Formatter<W>) -> fmt::Result {
        write!(f, "{}", self.code())
    }
}

impl Error for Refusal {}
