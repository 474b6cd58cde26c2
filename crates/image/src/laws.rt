//! What holds of every sound image and of every image that is written, and small images whose
//! verdicts follow from the definitions alone.
ghost use Rattle.std.specs.Prelude.{◌≡◌};
ghost use Rattle.image.specs.Laws.{ImageLaws};
ghost use Rattle.image.specs.Worked.{WorkedImages};
ghost use Rattle.image.specs.Writing.{RoundTrips, RecordsRise};

/// In a sound image every record is in exactly one chain, that of its near end; no two records
/// have the same ends; two junctions are joined exactly where some record has them as its ends. An
/// image with a record that no chain reaches is not sound, whatever its number of records. That is
/// what the contract says. Answers 0.
pub fn image_laws() -> u8
    ensures value { result ≡ 0 }
    ensures laws { ImageLaws }
{
    0
}

/// What is written for a plan of at most 8,000 pipes is a sound image, and stands for the plan with
/// the same junctions, all in service, and the same pipes. Its records stand in rising order of
/// near end, then far end. That is what the contract says. Answers 0.
pub fn round_trips() -> u8
    ensures value { result ≡ 0 }
    ensures trips { RoundTrips }
    ensures rise { RecordsRise }
{
    0
}

/// The image of the ring of four junctions, with one byte more, and with a fifth record in no
/// chain. That is what the contract says. Answers 0.
pub fn worked_images() -> u8
    ensures value { result ≡ 0 }
    ensures worked { WorkedImages }
{
    0
}
