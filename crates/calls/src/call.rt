//! The calls that a set takes.
use plan::Junction;

/// A call on a set, with its arguments. An order is by a kind of label.
#[derive(Clone, Copy)]
pub enum Call<'a, K> {
    Load(&'a [u8]),
    Join(Junction, Junction),
    Cut(Junction, Junction),
    Shut(Junction),
    Open(Junction),
    Order(K),
}
