// Why a memory declines.
ghost use Rattle.std.specs.Prelude.{◌≡◌, Some};
ghost use Rattle.memory.specs.Faults.{operation_name, fault_number, fault_name, fault_line, fault_text};

use std::{error, fmt};

#[derive(Clone, Copy, PartialEq, Eq, Debug)]
pub enum Operation {
    Write { line: u16 },
    Fence,
}

impl Operation {
    pub fn name(self) -> &'static str
        ensures { result.now ≡ operation_name self }
    {
        match self {
            Operation::Write { .. } => "write",
            Operation::Fence => "fence",
        }
    }
}

impl fmt::Display for Operation {
    ghost output = { λ operation. Some (operation_name operation) };

    fn fmt<W: fmt::Write>(&self, f: &mut fmt::Formatter<W>) -> fmt::Result {
        f.write_str(self.name())
    }
}

#[derive(Clone, Copy, PartialEq, Eq, Debug)]
pub enum MemoryFault {
    // M1: the memory has no such line
    NoSuchLine { line: u16 },
    // M2: power is off, or went at this operation
    NoPower { operation: Operation },
    // M2: power is off; a read is no operation
    Unreadable { line: u16 },
}

impl MemoryFault {
    // The number after the M. The rules give the numbers, and two variants share one, so they are no enum's own.
    pub fn number(self) -> u8
        ensures { result ≡ fault_number self }
    {
        match self {
            MemoryFault::NoSuchLine { .. } => 1,
            MemoryFault::NoPower { .. } | MemoryFault::Unreadable { .. } => 2,
        }
    }

    pub fn name(self) -> &'static str
        ensures { result.now ≡ fault_name self }
    {
        match self {
            MemoryFault::NoSuchLine { .. } => "no such line",
            MemoryFault::NoPower { .. } | MemoryFault::Unreadable { .. } => "no power",
        }
    }

    // The line in question: a fence has none and tells 65535, which the rules give in the place of an `Option`.
    pub fn line(self) -> u16
        ensures { result ≡ fault_line self }
    {
        match self {
            MemoryFault::NoSuchLine { line }
            | MemoryFault::NoPower {
                operation: Operation::Write { line },
            }
            | MemoryFault::Unreadable { line } => line,
            MemoryFault::NoPower {
                operation: Operation::Fence,
            } => u16::MAX,
        }
    }
}

// By hand, as thiserror's derive promises no text.
impl fmt::Display for MemoryFault {
    ghost output = { λ fault. Some (fault_text fault) };

    fn fmt<W: fmt::Write>(&self, f: &mut fmt::Formatter<W>) -> fmt::Result {
        let number = self.number();
        let name = self.name();
        match *self {
            MemoryFault::NoSuchLine { line } => write!(f, "M{number} {name}: line {line}"),
            MemoryFault::NoPower {
                operation: Operation::Write { line },
            } => write!(f, "M{number} {name}: write of line {line}"),
            MemoryFault::NoPower {
                operation: Operation::Fence,
            } => write!(f, "M{number} {name}: fence"),
            MemoryFault::Unreadable { line } => write!(f, "M{number} {name}: read of line {line}"),
        }
    }
}

impl error::Error for MemoryFault {}
