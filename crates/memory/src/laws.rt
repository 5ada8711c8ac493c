// What a user of any kind of memory may rely on, each shown of a function that does it.
ghost use Rattle.std.specs.Prelude.{◌≡◌};
ghost use Rattle.memory.specs.Laws.{Survives, Outlasts};
ghost use Rattle.memory.specs.Meaning.{Reads};

use crate::{Memory, MemoryFault};

// Writes a line, fences, cuts, powers up again and reads the line: it reads back, whatever the cut did.
pub fn write_fence_and_cut<M: Memory>(
    memory: &mut M,
    line: u16,
    content: &[u8; 64],
    operations: u32,
) -> Result<[u8; 64], MemoryFault>
    ensures { Survives (M.Memory.meaning memory.old) line content.now operations result (M.Memory.meaning memory.new) }
{
    memory.write(line, content)?;
    memory.fence()?;
    read_after_cut(memory, line, operations)
}

// Cuts, powers up again and reads a line: no durable line was changed by the cut.
pub fn read_after_cut<M: Memory>(
    memory: &mut M,
    line: u16,
    left: u32,
) -> Result<[u8; 64], MemoryFault>
    ensures { Outlasts (M.Memory.meaning memory.old) line left result (M.Memory.meaning memory.new) }
{
    memory.cut();
    memory.power_up(left);
    memory.read(line)
}

// Reads a line twice: both answers are the same, and the memory is as it was.
pub fn read_twice<M: Memory>(
    memory: &mut M,
    line: u16,
) -> (Result<[u8; 64], MemoryFault>, Result<[u8; 64], MemoryFault>)
    ensures reads { Reads (M.Memory.meaning memory.old) line result.0 }
    ensures alike { result.0 ≡ result.1 }
    ensures same { memory.new ≡ memory.old }
{
    (memory.read(line), memory.read(line))
}
