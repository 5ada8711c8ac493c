// A memory that is lent is a memory too, so that a caller keeps the one it owns.
use crate::{Memory, MemoryFault};

impl<M: Memory> Memory for &mut M {
    ghost meaning = { λ lent. M.Memory.meaning lent.now };

    ghost sound = { λ lent. M.Memory.sound lent.now };

    fn line_count(&self) -> usize {
        (**self).line_count()
    }

    fn is_on(&self) -> bool {
        (**self).is_on()
    }

    fn operations_left(&self) -> u32 {
        (**self).operations_left()
    }

    fn read(&self, line: u16) -> Result<[u8; 64], MemoryFault> {
        (**self).read(line)
    }

    fn write(&mut self, line: u16, content: &[u8; 64]) -> Result<(), MemoryFault> {
        (**self).write(line, content)
    }

    fn fence(&mut self) -> Result<(), MemoryFault> {
        (**self).fence()
    }

    fn cut(&mut self) {
        (**self).cut()
    }

    fn power_up(&mut self, operations: u32) {
        (**self).power_up(operations)
    }
}
