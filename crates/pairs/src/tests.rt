use crate::{ROW, clear, is_marked, mark, next_marked, unmark};
use plan::Junction;

#[test]
fn marks_in_both_rows(rt: HostRuntime) {
    let mut words = [0; 3 * ROW];
    mark(&mut words, Junction(1), Junction(3));
    assert!(rt; is_marked(&words, Junction(1), Junction(3)));
    assert!(rt; is_marked(&words, Junction(3), Junction(1)));
    assert!(rt; !is_marked(&words, Junction(1), Junction(1)));
    assert_eq!(rt; words[0], 1 << 2);
    assert_eq!(rt; words[16], 1);
    unmark(&mut words, Junction(3), Junction(1));
    assert_eq!(rt; words, [0; 3 * ROW]);
}

#[test]
fn finds_the_next(rt: HostRuntime) {
    let mut words = [0; 512 * ROW];
    mark(&mut words, Junction(2), Junction(1));
    mark(&mut words, Junction(2), Junction(512));
    assert_eq!(rt;
        next_marked(&words, Junction(2), Junction(0)),
        Some(Junction(1))
    );
    assert_eq!(rt;
        next_marked(&words, Junction(2), Junction(1)),
        Some(Junction(512))
    );
    assert_eq!(rt; next_marked(&words, Junction(2), Junction(512)), None);
    assert_eq!(rt; next_marked(&words, Junction(3), Junction(0)), None);
}

#[test]
fn leaves_pairs_without_rows(rt: HostRuntime) {
    let mut words = [0; 2 * ROW];
    mark(&mut words, Junction(2), Junction(3));
    mark(&mut words, Junction(0), Junction(1));
    assert_eq!(rt; words, [0; 2 * ROW]);
    let full = [u64::MAX; 2 * ROW];
    assert!(rt; !is_marked(&full, Junction(0), Junction(1)));
    assert!(rt; !is_marked(&full, Junction(1), Junction(513)));
    assert_eq!(rt; next_marked(&full, Junction(3), Junction(0)), None);
}

#[test]
fn clears_the_first_rows(rt: HostRuntime) {
    let mut words = [7; 2 * ROW + 1];
    clear(&mut words, 2);
    assert_eq!(rt; words[15], 0);
    assert_eq!(rt; words[16], 7);
    clear(&mut words, 512);
    assert_eq!(rt; words[16], 0);
}
