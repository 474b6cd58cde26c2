ghost use Rattle.std.specs.Prelude.{◌+◌, ◌%◌, ◌&&◌, ◌==◌};
ghost use Rattle.plan.specs.Plans.{within};
ghost use Rattle.std.proofs.Common.{rules};

use crate::{fill, pipes};
use plan::{Junction, ReadablePlan, Refusal};

// The ring of four: 1 and 3 are joined to 2 and 4.
#[derive(Drop)]
struct Ring;

impl ReadablePlan for Ring {
    ghost meaning = { λ _. record { size = 4; serves = within 4; joins = λ v w. within 4 v && within 4 w && ((v + w) % 2 == 1) } };

    ghost sound = { Prim.search rules };

    fn size(&self) -> u16 {
        4
    }

    fn serves(&self, v: Junction) -> bool {
        v.is_within(4)
    }

    fn joined(&self, v: Junction, w: Junction) -> bool {
        v.is_within(4) && w.is_within(4) && (v.0 + w.0) % 2 == 1
    }

    fn next(&self, v: Junction, w: Junction) -> Option<Junction> {
        if !v.is_within(4) || w.0 > 3 {
            return None;
        }
        let next = if (v.0 + w.0) % 2 == 0 {
            w.0 + 1
        } else {
            w.0 + 2
        };
        if next > 4 { None } else { Some(Junction(next)) }
    }
}

#[test]
fn finds_the_fill_of_a_ring(rt: HostRuntime) {
    let mut rows = [7; 33];
    let order = [Junction(3), Junction(4), Junction(2), Junction(1)];
    assert_eq!(rt; fill(&Ring, &order, &mut rows), Ok(1));
    assert_eq!(rt; rows[0], 0);
    assert_eq!(rt; rows[8], 1 << 3);
    assert_eq!(rt; rows[24], 1 << 1);
    assert_eq!(rt; rows[32], 7);
}

#[test]
fn turns_down_what_is_no_order_before_short_memory(rt: HostRuntime) {
    let mut rows = [7; 31];
    let twice = [Junction(3), Junction(4), Junction(3), Junction(1)];
    assert_eq!(rt; fill(&Ring, &twice, &mut rows), Err(Refusal::NoOrder));
    let order = [Junction(3), Junction(4), Junction(2), Junction(1)];
    assert_eq!(rt; fill(&Ring, &order, &mut rows), Err(Refusal::ShortMemory));
    assert_eq!(rt; Refusal::NoOrder.code(), 9);
    assert_eq!(rt; Refusal::ShortMemory.code(), 8);
    assert_eq!(rt; rows[0], 7);
}

#[test]
fn counts_the_pipes_of_a_ring(rt: HostRuntime) {
    assert_eq!(rt; pipes(&Ring), 4);
}
