// The numbers, lines and words of faults.
use crate::common::NO_FENCE;
use memory::{MemoryFault, Operation};
use std::test::Fail;

#[test]
fn faults_in_words(rt: HostRuntime) -> Result<(), Fail> {
    let missing = MemoryFault::NoSuchLine { line: 70 };
    let write = MemoryFault::NoPower {
        operation: Operation::Write { line: 3 },
    };
    let fence = NO_FENCE;
    let read = MemoryFault::Unreadable { line: 5 };
    assert_eq!(rt; missing.number(), 1);
    assert_eq!(rt; write.number(), 2);
    assert_eq!(rt; read.number(), 2);
    assert_eq!(rt; missing.line(), 70);
    assert_eq!(rt; write.line(), 3);
    assert_eq!(rt; fence.line(), 65535);
    assert_eq!(rt; read.line(), 5);
    let heap = rt.alloc();
    assert!(rt; format!(in heap; "{missing}")?.as_str() == "M1 no such line: line 70");
    assert!(rt; format!(in heap; "{write}")?.as_str() == "M2 no power: write of line 3");
    assert!(rt; format!(in heap; "{fence}")?.as_str() == "M2 no power: fence");
    assert!(rt; format!(in heap; "{read}")?.as_str() == "M2 no power: read of line 5");
    Ok(())
}

// Width and precision do not apply, and no contract speaks of them.
#[test]
fn an_operation_in_any_width(rt: HostRuntime) -> Result<(), Fail> {
    let write = Operation::Write { line: 3 };
    let fence = Operation::Fence;
    let heap = rt.alloc();
    assert!(rt; format!(in heap; "[{write}]")?.as_str() == "[write]");
    assert!(rt; format!(in heap; "[{write:>8}]")?.as_str() == "[write]");
    assert!(rt; format!(in heap; "[{fence:.2}]")?.as_str() == "[fence]");
    Ok(())
}
