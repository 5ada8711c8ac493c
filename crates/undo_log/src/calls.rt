// The shorter calls: questions, data lines, an entry emptied, and the memory's power.
ghost use Rattle.std.specs.Prelude.{◌≡◌, length};
ghost use Rattle.layout.specs.Block.{entry_at};
ghost use Rattle.layout.specs.Sizes.{Bounded};
ghost use Rattle.undo_log.specs.Calls.{state, world, notes_of, powered, forgotten, Lists, WritesData, Empties, Loses};

use crate::{Log, LogFault, Place};
use layout::{BlockEntry, NO_BUCKET, Sizes};
use memory::Memory;

impl<M: Memory> Log<M> {
    pub fn sizes(&self) -> Sizes
        ensures is { result ≡ (notes_of self.now).sizes }
        ensures bounded { Bounded result }
        ensures block { length (world self.now).block ≡ result.cores }
    {
        self.sizes // all 0 until the log is started
    }

    // The memory, for questions and reads.
    pub fn memory(&self) -> &M
        ensures { M.Memory.meaning result.now ≡ (world self.now).memory }
    {
        &self.memory
    }

    // A core's entry; that of a core that is not there is empty.
    pub fn entry(&self, core: u8) -> BlockEntry
        ensures { result ≡ entry_at (world self.now).block core }
    {
        self.block
            .get(usize::from(core))
            .copied()
            .unwrap_or_default()
    }

    // Fills a list with the block, entry by entry as the rules have it, if it has one for each core.
    pub fn read_block(&self, entries: &mut [BlockEntry]) -> Result<(), LogFault>
        ensures { Lists (world self.now).block entries.old result entries.new }
    {
        if entries.len() != self.block.len() {
            return Err(LogFault::UnfitList);
        }
        for (core, held) in self.block.iter().enumerate() {
            entries[core] = *held;
        }
        Ok(())
    }

    pub fn write_data(
        &mut self,
        place: Place,
        line: u16,
        content: &[u8; 64],
    ) -> Result<(), LogFault>
        ensures { WritesData place line content.now (state self.old) result (state self.new) }
    {
        if line >= self.sizes.data_lines {
            return Err(LogFault::NoDataLine { line });
        }
        self.write(place, line, content)
    }

    // Empties a core's entry in one step; the core has then no open record and no bucket before.
    pub fn empty(&mut self, core: u8)
        ensures { Empties core (state self.old) (state self.new) }
    {
        self.enter(core, BlockEntry::empty());
        self.note_closed(core, NO_BUCKET);
    }

    // Forgets what goes with the power.
    pub fn forget(&mut self)
        ensures { state self.new ≡ forgotten (state self.old) }
    {
        self.noted.open.as_mut_slice().fill(None);
        self.noted.before.as_mut_slice().fill(NO_BUCKET);
    }

    // Power goes now.
    pub fn cut(&mut self)
        ensures { Loses (state self.old) (state self.new) }
    {
        self.memory.cut();
        self.forget();
    }

    pub fn power_up(&mut self, operations: u32)
        ensures { state self.new ≡ powered (state self.old) operations }
    {
        self.memory.power_up(operations);
    }
}
