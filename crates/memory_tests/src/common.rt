// The faults that several tests expect.
use memory::{MemoryFault, Operation};

pub(crate) const NO_WRITE: MemoryFault = MemoryFault::NoPower {
    operation: Operation::Write { line: 1 },
};

pub(crate) const NO_FENCE: MemoryFault = MemoryFault::NoPower {
    operation: Operation::Fence,
};
