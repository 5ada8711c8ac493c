// A log is made blank on a memory, and started with its sizes and a block.
ghost use Rattle.std.specs.Prelude.{◌≡◌, []};
ghost use Rattle.undo_log.specs.Calls.{state, world, notes_of, no_sizes, Starts};
ghost use Rattle.undo_log.specs.Closing.{blank_notes};
ghost use Rattle.undo_log.specs.Steps.{World};

use crate::noted::Noted;
use crate::{Log, LogFault};
use arrayvec::ArrayVec;
use layout::{BlockEntry, Sizes, is_block};
use memory::Memory;

impl<M: Memory> Log<M> {
    // A log that is not started: without cores, lines and buckets.
    pub fn new(memory: M) -> Log<M>
        ensures state { world result ≡ record { block = []; memory = M.Memory.meaning memory } }
        ensures notes { notes_of result ≡ blank_notes no_sizes }
    {
        Log {
            memory,
            sizes: Sizes::default(),
            block: ArrayVec::new(),
            noted: Noted::blank(0),
        }
    }

    // Takes over sizes and block, and cuts the memory.
    pub fn start(&mut self, sizes: Sizes, entries: &[BlockEntry]) -> Result<(), LogFault>
        ensures { Starts sizes entries.now (state self.old) result (state self.new) }
    {
        if !sizes.fit(self.memory.line_count()) {
            return Err(LogFault::UnfitSizes);
        }
        if !is_block(&sizes, entries) {
            return Err(LogFault::BrokenBlock);
        }
        let block = ArrayVec::try_from(entries).map_err(|_| LogFault::BrokenBlock)?;
        self.memory.cut();
        self.sizes = sizes;
        self.block = block;
        self.noted = Noted::blank(sizes.cores);
        Ok(())
    }
}
