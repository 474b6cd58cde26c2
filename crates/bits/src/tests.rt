use crate::BitRegister;
use plan::{Junction, ReadablePlan, Refusal, Register};
use std::test::Fail;

#[test]
fn joins_and_cuts(rt: HostRuntime) -> Result<(), Fail> {
    let Ok(mut register) = BitRegister::new(70, vec![in rt.alloc(); 1; 560]?) else {
        return Err(Fail::new("turned down"));
    };
    assert_eq!(rt; register.spare(), 2415);
    assert_eq!(rt; register.join(Junction(1), Junction(70)), Ok(()));
    assert_eq!(rt; register.join(Junction(1), Junction(65)), Ok(()));
    assert!(rt; register.joined(Junction(70), Junction(1)));
    assert_eq!(rt; register.next(Junction(1), Junction(0)), Some(Junction(65)));
    assert_eq!(rt;
        register.next(Junction(1), Junction(65)),
        Some(Junction(70))
    );
    assert_eq!(rt; register.next(Junction(1), Junction(70)), None);
    assert_eq!(rt; register.cut(Junction(65), Junction(1)), Ok(()));
    assert!(rt; !register.joined(Junction(1), Junction(65)));
    assert_eq!(rt; register.spare(), 2414);
    Ok(())
}

#[test]
fn turns_down(rt: HostRuntime) -> Result<(), Fail> {
    let Ok(mut register) = BitRegister::new(3, vec![in rt.alloc(); 0; 24]?) else {
        return Err(Fail::new("turned down"));
    };
    assert_eq!(rt;
        register.join(Junction(1), Junction(4)),
        Err(Refusal::NoJunction)
    );
    assert_eq!(rt;
        register.join(Junction(2), Junction(2)),
        Err(Refusal::OneJunction)
    );
    assert_eq!(rt;
        register.cut(Junction(1), Junction(2)),
        Err(Refusal::NotJoined)
    );
    assert_eq!(rt; register.join(Junction(1), Junction(2)), Ok(()));
    assert_eq!(rt;
        register.join(Junction(2), Junction(1)),
        Err(Refusal::JoinedAlready)
    );
    assert_eq!(rt; Refusal::NoJunction.code(), 2);
    assert_eq!(rt; Refusal::OneJunction.code(), 3);
    assert_eq!(rt; Refusal::NotJoined.code(), 13);
    assert_eq!(rt; Refusal::JoinedAlready.code(), 12);
    Ok(())
}

#[test]
fn gives_memory_back(rt: HostRuntime) -> Result<(), Fail> {
    let Err(turned) = BitRegister::new(3, vec![in rt.alloc(); 7; 23]?) else {
        return Err(Fail::new("made"));
    };
    assert_eq!(rt; turned.refusal, Refusal::ShortMemory);
    assert_eq!(rt; turned.refusal.code(), 8);
    assert_eq!(rt; turned.memory.len(), 23);
    assert_eq!(rt; turned.memory[0], 7);
    Ok(())
}
