use crate::{contains, insert, next, remove};

#[test]
fn holds_what_was_put_in(rt: HostRuntime) {
    let mut words = [0; 2];
    insert(&mut words, 3);
    insert(&mut words, 127);
    assert!(rt; contains(&words, 3));
    assert!(rt; contains(&words, 127));
    remove(&mut words, 3);
    assert!(rt; !contains(&words, 3));
    assert_eq!(rt; words[1], 1 << 63);
}

#[test]
fn passes_over_a_number_past_the_end(rt: HostRuntime) {
    let mut words = [5; 1];
    insert(&mut words, 64);
    remove(&mut words, 66);
    assert_eq!(rt; words[0], 5);
    assert!(rt; !contains(&words, 64));
}

#[test]
fn finds_the_next(rt: HostRuntime) {
    let words = [0b1001, 0, 1 << 7];
    assert_eq!(rt; next(&words, 0), Some(0));
    assert_eq!(rt; next(&words, 1), Some(3));
    assert_eq!(rt; next(&words, 4), Some(135));
    assert_eq!(rt; next(&words, 136), None);
}
