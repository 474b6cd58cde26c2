//! Loading an image into a new set, and ordering it.
ghost use Rattle.std.specs.Prelude.{◌*◌, vec_len};
ghost use Rattle.plan.specs.Memory.{KeptFrom};
ghost use Rattle.order.specs.Reports.{short};
ghost use Rattle.image.specs.Images.{image_of};
ghost use Rattle.calls.specs.Heard.{lists_of};
ghost use Rattle.image_order.specs.ImageOrders.{ImageOrdered};

use crate::first::First;
use calls::{Answer, Call, Outcome, run};
use chained::ChainedRegister;
use image::check;
use label::{Lexicographic, MarkSet};
use plan::Junction;
use set::Set;

/// The number of pipes that the register is made for: as many as an image can have.
// A number of its own: `image` keeps its bound to itself, since its header is checked against it.
pub const PIPES: u16 = 8000;

/// Loads an image into a new set of its n, over a chained register of 8,000 pipes in the memory
/// handed over, and orders it by lexicographic label: answers the order of the plan that the image
/// stands for, or the first refusal. Turned down by 4, 5, 4 and 6 where the image is not sound (see
/// `image::check`), and by 8 where the register has not n + 32,000 numbers, or the order not n
/// entries for the places, the ring and the labels, 8n words of rows and 2n entries of scratch.
/// Turned down, it changes none of the lists. Costs the load and the order.
// Five slices of memory, for the reason that stands at `order::order`.
pub fn order_image(
    bytes: &[u8],
    memory: Vec<u16>,
    places: &mut [Junction],
    ring: &mut [Junction],
    rows: &mut [u64],
    labels: &mut [MarkSet],
    scratch: &mut [u16],
) -> Answer
    ensures ordered { ImageOrdered bytes.now (vec_len memory) (short (image_of bytes.now).size places.old ring.old rows.old labels.old scratch.old) (lists_of places.old ring.old rows.old) result (lists_of places.new ring.new rows.new) }
    ensures labels { KeptFrom (image_of bytes.now).size labels.old labels.new }
    ensures scratch { KeptFrom (2 * (image_of bytes.now).size) scratch.old scratch.new }
{
    let header = check(bytes)?;
    let register = ChainedRegister::new(header.n, PIPES, memory).map_err(|turned| turned.refusal)?;
    let mut set = Set::new(register);
    let mut first = First {
        answer: Ok(Outcome::Done),
    };
    let calls = [Call::Load(bytes), Call::Order(Lexicographic)];
    match run(
        &mut set, &calls, &mut first, places, ring, rows, labels, scratch,
    ) {
        Ok(()) => first.answer,
        Err(never) => match never {},
    }
}
