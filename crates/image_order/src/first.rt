//! A listener that keeps one answer.
ghost use Rattle.std.specs.Prelude.{◌≡◌};
ghost use Rattle.image_order.specs.Firsts.{or_told, first_told};

use calls::{Answer, Listener, Lists, Outcome};
use std::convert::Infallible;

/// Keeps the first answer that says more than that a call was carried out.
#[derive(Drop)]
pub(crate) struct First {
    /// That answer, or `Outcome::Done` while there is none: what is then answered in the end, so an
    /// `Option` would be no plainer.
    pub(crate) answer: Answer,
}

impl Listener for First {
    type Error = Infallible;

    ghost log = { λ s hs. s.answer ≡ first_told hs };

    fn hear(&mut self, answer: Answer, _: Lists<'_>) -> Result<(), Infallible> {
        self.answer = or(self.answer, answer);
        Ok(())
    }
}

// The first of two answers, or the second where the first is only that a call was carried out.
fn or(first: Answer, second: Answer) -> Answer
    ensures { result ≡ or_told first second }
{
    match first {
        Ok(Outcome::Done) => second,
        _ => first,
    }
}
