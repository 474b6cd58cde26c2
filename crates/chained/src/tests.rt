use crate::ChainedRegister;
use plan::{Junction, ReadablePlan, Refusal, Register};
use std::test::Fail;

#[test]
fn joins_and_cuts(rt: HostRuntime) -> Result<(), Fail> {
    let Ok(mut register) = ChainedRegister::new(5, 3, vec![in rt.alloc(); 9; 17]?) else {
        return Err(Fail::new("turned down"));
    };
    assert_eq!(rt; register.spare(), 3);
    assert_eq!(rt; register.join(Junction(4), Junction(5)), Ok(()));
    assert_eq!(rt; register.join(Junction(4), Junction(1)), Ok(()));
    assert_eq!(rt; register.join(Junction(3), Junction(4)), Ok(()));
    assert!(rt; register.joined(Junction(5), Junction(4)));
    assert_eq!(rt; register.next(Junction(4), Junction(0)), Some(Junction(1)));
    assert_eq!(rt; register.next(Junction(4), Junction(1)), Some(Junction(3)));
    assert_eq!(rt; register.next(Junction(4), Junction(3)), Some(Junction(5)));
    assert_eq!(rt; register.next(Junction(4), Junction(5)), None);
    assert_eq!(rt; register.cut(Junction(4), Junction(3)), Ok(()));
    assert!(rt; !register.joined(Junction(3), Junction(4)));
    assert_eq!(rt; register.next(Junction(4), Junction(1)), Some(Junction(5)));
    assert_eq!(rt; register.spare(), 1);
    Ok(())
}

#[test]
fn cells_are_used_again(rt: HostRuntime) -> Result<(), Fail> {
    let Ok(mut register) = ChainedRegister::new(3, 1, vec![in rt.alloc(); 0; 7]?) else {
        return Err(Fail::new("turned down"));
    };
    for _ in 0..10 {
        assert_eq!(rt; register.join(Junction(1), Junction(3)), Ok(()));
        assert_eq!(rt;
            register.join(Junction(1), Junction(2)),
            Err(Refusal::NoSpare)
        );
        assert_eq!(rt;
            register.join(Junction(3), Junction(1)),
            Err(Refusal::JoinedAlready)
        );
        assert_eq!(rt; register.cut(Junction(3), Junction(1)), Ok(()));
        assert_eq!(rt;
            register.cut(Junction(1), Junction(3)),
            Err(Refusal::NotJoined)
        );
    }
    assert_eq!(rt;
        register.join(Junction(0), Junction(2)),
        Err(Refusal::NoJunction)
    );
    assert_eq!(rt;
        register.join(Junction(2), Junction(2)),
        Err(Refusal::OneJunction)
    );
    Ok(())
}

#[test]
fn gives_memory_back(rt: HostRuntime) -> Result<(), Fail> {
    let Err(turned) = ChainedRegister::new(3, 5, vec![in rt.alloc(); 7; 22]?) else {
        return Err(Fail::new("made"));
    };
    assert_eq!(rt; turned.refusal, Refusal::ShortMemory);
    assert_eq!(rt; turned.refusal.code(), 8);
    assert_eq!(rt; Refusal::NoSpare.code(), 14);
    assert_eq!(rt; turned.memory.len(), 22);
    assert_eq!(rt; turned.memory[0], 7);
    Ok(())
}
