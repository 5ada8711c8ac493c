// The three steps: a write, a fence, and a change of a core's entry in the block.
ghost use Rattle.std.specs.Prelude.{◌≡◌, true, Some, None, Ok};
ghost use Rattle.layout.specs.Places.{entry_line};
ghost use Rattle.undo_log.specs.Calls.{state, world, notes_of};
ghost use Rattle.undo_log.specs.Closing.{state_of, open_at, before_at, with_open, noting, Takes};
ghost use Rattle.undo_log.specs.Open.{open_fits};
ghost use Rattle.undo_log.specs.Steps.{write, fence, enter};

use crate::lift::at;
use crate::{Log, LogFault, Place};
use layout::{BlockEntry, NO_BUCKET, OpenRecord, RecordId};
use memory::Memory;

impl<M: Memory> Log<M> {
    pub(crate) fn write(
        &mut self,
        place: Place,
        line: u16,
        content: &[u8; 64],
    ) -> Result<(), LogFault>
        ensures { Takes (write line content.now place) (state self.old) result (state self.new) }
    {
        at(place, self.memory.write(line, content))
    }

    pub fn fence(&mut self, place: Place) -> Result<(), LogFault>
        ensures { Takes (fence place) (state self.old) result (state self.new) }
    {
        at(place, self.memory.fence())
    }

    pub(crate) fn enter(&mut self, core: u8, entry: BlockEntry)
        ensures { Takes (enter core «entry») (state self.old) (Ok tt) (state self.new) }
    {
        if core < self.sizes.cores {
            self.block[usize::from(core)] = entry;
        }
    }

    // A core has this record open.
    pub(crate) fn note_open(&mut self, core: u8, opened: OpenRecord)
        requires { open_fits (Some opened) ≡ true }
        ensures { state self.new ≡ state_of (with_open (notes_of self.old) core (Some opened)) (world self.old) }
    {
        if core < self.sizes.cores {
            self.noted.open[usize::from(core)] = Some(opened);
        }
    }

    // A core has no record open, and this bucket before its current one.
    pub(crate) fn note_closed(&mut self, core: u8, before: u8)
        ensures { state self.new ≡ state_of (noting (notes_of self.old) core None before) (world self.old) }
    {
        if core < self.sizes.cores {
            self.noted.open[usize::from(core)] = None;
            self.noted.before[usize::from(core)] = before;
        }
    }

    // A core's open record.
    pub(crate) fn open_at(&self, core: u8) -> Option<OpenRecord>
        ensures is { result ≡ open_at (notes_of self.now) core }
        ensures fits { open_fits result ≡ true }
    {
        *self.noted.open.get(usize::from(core))?
    }

    // The bucket before a core's current one, `NO_BUCKET` if there is none.
    pub(crate) fn before_at(&self, core: u8) -> u8
        ensures { result ≡ before_at (notes_of self.now) core }
    {
        self.noted
            .before
            .get(usize::from(core))
            .copied()
            .unwrap_or(NO_BUCKET)
    }

    // The line of a record's entry, its header being entry 0.
    pub(crate) fn line_of(&self, id: RecordId, entry: u8) -> u16
        ensures { result ≡ entry_line self.now.sizes id.bucket id.slot «entry» }
    {
        id.entry_line(&self.sizes, entry) as u16
    }
}
