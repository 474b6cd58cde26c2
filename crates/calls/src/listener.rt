//! Who hears the answers to a list of calls.
ghost use Rattle.std.specs.Prelude.{List, [], ◌∷◌};
ghost use Rattle.calls.specs.Heard.{Heard, heard_with, Told};

use crate::answer::Answer;
use plan::Junction;

/// The lists that an order writes, as they are after a call.
#[derive(Clone, Copy)]
pub struct Lists<'a> {
    /// The junctions of places 1 to n.
    pub places: &'a [Junction],
    /// A ring of the plan.
    pub ring: &'a [Junction],
    /// The rows of the fill.
    pub rows: &'a [u64],
}

/// Is told each answer in turn, with the answer lists as they then are. `log` says which answers it
/// may have been told so far, the first one first; a listener that keeps nothing may have been told
/// any. It may fail, as a printer does whose output is closed.
pub trait Listener {
    type Error;

    ghost log: { Self → List Heard → Type 0 };

    /// One more answer. Where the listener fails, it was told it all the same.
    fn hear(&mut self, answer: Answer, lists: Lists<'_>) -> Result<(), Self::Error>
        ensures { Told (log self.old) (log self.new) (heard_with answer lists.entry.places.now lists.entry.ring.now lists.entry.rows.now ∷ []) };
}
