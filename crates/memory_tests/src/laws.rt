// The laws over any kind of memory, run on both.
use crate::common::{NO_FENCE, NO_WRITE};
use memory::{Memory, MemoryFault, read_after_cut, read_twice, write_fence_and_cut};
use queued::Queued;
use std::process::Abort;
use straight::Straight;

// A line that is written and fenced reads back, also where power goes at the write or at the fence before.
fn written_and_fenced<M: Memory>(rt: &impl Abort, memory: &mut M) {
    assert_eq!(rt;
        write_fence_and_cut(memory, 2, &[7; 64], 0),
        Err(MemoryFault::NoSuchLine { line: 2 })
    );
    assert_eq!(rt; write_fence_and_cut(memory, 1, &[7; 64], 0), Err(NO_WRITE));
    memory.power_up(0);
    assert_eq!(rt; write_fence_and_cut(memory, 1, &[7; 64], 0), Err(NO_WRITE));
    memory.power_up(1);
    assert_eq!(rt; write_fence_and_cut(memory, 1, &[7; 64], 0), Err(NO_FENCE));
    memory.power_up(2);
    assert_eq!(rt; write_fence_and_cut(memory, 1, &[7; 64], 5), Ok([7; 64]));
    assert_eq!(rt; memory.operations_left(), 5);
}

// A durable line outlasts a cut, and reading twice gives the same.
fn durable_and_read_twice<M: Memory>(rt: &impl Abort, memory: &mut M) {
    memory.power_up(3);
    assert_eq!(rt; memory.write(0, &[8; 64]), Ok(()));
    assert_eq!(rt; memory.fence(), Ok(()));
    assert_eq!(rt; memory.write(1, &[9; 64]), Ok(()));
    assert_eq!(rt; read_after_cut(memory, 0, 4), Ok([8; 64]));
    assert_eq!(rt;
        read_after_cut(memory, 2, 4),
        Err(MemoryFault::NoSuchLine { line: 2 })
    );
    assert_eq!(rt; memory.operations_left(), 4);
    let (first, second) = read_twice(memory, 0);
    assert_eq!(rt; first, Ok([8; 64]));
    assert_eq!(rt; second, Ok([8; 64]));
}

// Each kind in a test of its own, so that a failure names it.
#[test]
fn on_straight_memory(rt: HostRuntime) {
    let mut bytes = [1; 128];
    written_and_fenced(&rt, &mut Straight::new(&mut bytes));
    durable_and_read_twice(&rt, &mut Straight::new(&mut bytes));
}

#[test]
fn on_queued_memory(rt: HostRuntime) {
    let mut bytes = [1; 128];
    written_and_fenced(&rt, &mut Queued::new(&mut bytes, u32::MAX));
    durable_and_read_twice(&rt, &mut Queued::new(&mut bytes, u32::MAX));
}
