//! What holds of every line of a sheet.
ghost use Rattle.std.specs.Prelude.{◌≡◌};
ghost use Rattle.sheet.specs.Laws.{SpellingLaws};

/// A line spells at most one call, so reading it has one answer. A call whose numbers are at most
/// 65,535 has a line that spells it, and no other line does: its verb and its numbers in decimal
/// digits, each after one blank. That is what the contract says. Answers 0.
pub fn spelling_laws() -> u8
    ensures value { result ≡ 0 }
    ensures laws { SpellingLaws }
{
    0
}
