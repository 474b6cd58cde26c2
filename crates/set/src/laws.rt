//! What holds of every load, and small loads whose verdicts follow from the definitions alone.
ghost use Rattle.std.specs.Prelude.{◌≡◌};
ghost use Rattle.set.specs.Laws.{LoadLaws};
ghost use Rattle.set.specs.Worked.{WorkedLoads};

/// A load writes in exactly the pipes of its image, beside those that are there, and lowers the
/// spare by their number; n, service and what is shut stay. Where its checks pass, the plan of the
/// set is then the plan of the image. That is what the contract says. Answers 0.
pub fn load_writes_the_pipes_of_its_image() -> u8
    ensures value { result ≡ 0 }
    ensures laws { LoadLaws }
{
    0
}

/// The ring of four loaded onto a new ledger, with too low a spare, a second time, with a junction
/// shut and onto another n; and images that are not sound. That is what the contract says.
/// Answers 0.
pub fn worked_loads() -> u8
    ensures value { result ≡ 0 }
    ensures worked { WorkedLoads }
{
    0
}
