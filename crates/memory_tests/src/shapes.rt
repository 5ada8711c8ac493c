// How many lines there are, which of them exist, and what stands behind the last.
use crate::common::NO_FENCE;
use memory::{Memory, MemoryFault};
use queued::Queued;
use std::process::Abort;
use std::test::Fail;
use straight::Straight;

// Writes line 0, fences, cuts and reads it back.
fn keeps_line_0<M: Memory>(rt: &impl Abort, memory: &mut M) -> Result<(), Fail> {
    memory.power_up(2);
    memory.write(0, &[7; 64])?;
    memory.fence()?;
    memory.cut();
    memory.power_up(0);
    assert_eq!(rt; memory.read(0), Ok([7; 64]));
    Ok(())
}

// A memory without lines: every line is missing, with power on or off.
fn has_no_line<M: Memory>(rt: &impl Abort, memory: &mut M) {
    assert_eq!(rt; memory.line_count(), 0);
    assert_eq!(rt; memory.read(0), Err(MemoryFault::NoSuchLine { line: 0 }));
    memory.power_up(1);
    assert_eq!(rt;
        memory.write(0, &[7; 64]),
        Err(MemoryFault::NoSuchLine { line: 0 })
    );
    assert_eq!(rt; memory.operations_left(), 1);
    assert_eq!(rt; memory.fence(), Ok(()));
    assert_eq!(rt; memory.fence(), Err(NO_FENCE));
    assert_eq!(rt; memory.is_on(), false);
}

#[test]
fn no_lines(rt: HostRuntime) {
    let mut none = [];
    has_no_line(&rt, &mut Straight::new(&mut none));
    has_no_line(&rt, &mut Queued::new(&mut none, u32::MAX));
    let mut short = [9; 63];
    has_no_line(&rt, &mut Straight::new(&mut short));
    has_no_line(&rt, &mut Queued::new(&mut short, u32::MAX));
    assert_eq!(rt; short, [9; 63]);
}

#[test]
fn a_rest_of_1_byte(rt: HostRuntime) -> Result<(), Fail> {
    let mut bytes = [9; 65];
    keeps_line_0(&rt, &mut Straight::new(&mut bytes))?;
    assert_eq!(rt; bytes[63], 7);
    assert_eq!(rt; bytes[64], 9);
    keeps_line_0(&rt, &mut Queued::new(&mut bytes, 0))?;
    assert_eq!(rt; bytes[64], 9);
    Ok(())
}

#[test]
fn a_rest_of_63_bytes(rt: HostRuntime) -> Result<(), Fail> {
    let mut bytes = [9; 127];
    keeps_line_0(&rt, &mut Straight::new(&mut bytes))?;
    assert!(rt; bytes[64..127] == [9; 63]);
    keeps_line_0(&rt, &mut Queued::new(&mut bytes, u32::MAX))?;
    assert!(rt; bytes[64..127] == [9; 63]);
    assert_eq!(rt; Straight::new(&mut bytes).line_count(), 1);
    assert_eq!(rt;
        Straight::new(&mut bytes).read(1),
        Err(MemoryFault::NoSuchLine { line: 1 })
    );
    Ok(())
}
