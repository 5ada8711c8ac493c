// Power: coming on, going, and what is declined without it.
use crate::common::{NO_FENCE, NO_WRITE};
use memory::{Memory, MemoryFault};
use queued::Queued;
use std::process::Abort;
use straight::Straight;

// A memory just made, with power off: everything is declined, and a missing line comes before the power.
fn declines_while_off<M: Memory>(rt: &impl Abort, memory: &mut M) {
    assert_eq!(rt; memory.is_on(), false);
    assert_eq!(rt; memory.operations_left(), 0);
    assert_eq!(rt; memory.read(1), Err(MemoryFault::Unreadable { line: 1 }));
    assert_eq!(rt; memory.write(1, &[7; 64]), Err(NO_WRITE));
    assert_eq!(rt; memory.fence(), Err(NO_FENCE));
    assert_eq!(rt; memory.read(2), Err(MemoryFault::NoSuchLine { line: 2 }));
    assert_eq!(rt;
        memory.write(2, &[7; 64]),
        Err(MemoryFault::NoSuchLine { line: 2 })
    );
    memory.cut();
    memory.power_up(0);
    assert_eq!(rt;
        memory.read(1),
        Ok([1; 64]),
        "a cut while off changes nothing"
    );
}

// With 0 operations left a read works, a missing line leaves power on, and a fence takes it away.
fn loses_power_at_a_fence<M: Memory>(rt: &impl Abort, memory: &mut M) {
    memory.power_up(0);
    assert_eq!(rt; memory.is_on(), true);
    assert_eq!(rt; memory.read(1), Ok([1; 64]));
    assert_eq!(rt;
        memory.write(2, &[7; 64]),
        Err(MemoryFault::NoSuchLine { line: 2 })
    );
    assert_eq!(rt; memory.is_on(), true);
    assert_eq!(rt; memory.fence(), Err(NO_FENCE));
    assert_eq!(rt; memory.is_on(), false);
}

// A power-up while power is on only sets the operations left; an unfenced line stays as it was.
fn powers_up_twice<M: Memory>(rt: &impl Abort, memory: &mut M) {
    memory.power_up(1);
    assert_eq!(rt; memory.write(1, &[7; 64]), Ok(()));
    assert_eq!(rt; memory.operations_left(), 0);
    memory.power_up(3);
    assert_eq!(rt; memory.operations_left(), 3);
    assert_eq!(rt; memory.read(1), Ok([7; 64]));
    assert_eq!(rt; memory.fence(), Ok(()));
    assert_eq!(rt; memory.operations_left(), 2);
}

// Each kind in a test of its own, so that a failure names it.
#[test]
fn straight(rt: HostRuntime) {
    let mut bytes = [1; 128];
    declines_while_off(&rt, &mut Straight::new(&mut bytes));
    loses_power_at_a_fence(&rt, &mut Straight::new(&mut bytes));
    powers_up_twice(&rt, &mut Straight::new(&mut bytes));
    assert_eq!(rt; bytes[127], 7);
}

#[test]
fn queued(rt: HostRuntime) {
    let mut bytes = [1; 128];
    declines_while_off(&rt, &mut Queued::new(&mut bytes, u32::MAX));
    loses_power_at_a_fence(&rt, &mut Queued::new(&mut bytes, u32::MAX));
    powers_up_twice(&rt, &mut Queued::new(&mut bytes, u32::MAX));
    assert_eq!(rt; bytes[127], 7);
}

// The write at which power goes: straight memory leaves the first 32 bytes new.
#[test]
fn straight_write_is_torn(rt: HostRuntime) {
    let mut bytes = [1; 192];
    let mut memory = Straight::new(&mut bytes);
    memory.power_up(0);
    assert_eq!(rt; memory.write(1, &[7; 64]), Err(NO_WRITE));
    assert_eq!(rt; memory.operations_left(), 0);
    drop(memory);
    assert!(rt; bytes[0..64] == [1; 64]);
    assert!(rt; bytes[64..96] == [7; 32]);
    assert!(rt; bytes[96..192] == [1; 96]);
}

// The write at which power goes is not entered: its line stays old, and the queue is left by its fates.
#[test]
fn queued_write_is_not_entered(rt: HostRuntime) {
    let mut bytes = [1; 192];
    let mut memory = Queued::new(&mut bytes, 1);
    memory.power_up(1);
    assert_eq!(rt; memory.write(0, &[7; 64]), Ok(()));
    assert_eq!(rt; memory.write(1, &[8; 64]), Err(NO_WRITE));
    assert_eq!(rt; memory.is_on(), false);
    drop(memory);
    assert!(rt; bytes[0..64] == [7; 64]);
    assert!(rt; bytes[64..192] == [1; 128]);
}
