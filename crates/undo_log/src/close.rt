// Closing: the header is written and fenced, and then one step in the block counts the record.
ghost use Rattle.std.specs.Prelude.{◌≡◌, ◌^◌, ◌<◌, [], ◌∷◌};
ghost use Rattle.layout.specs.Block.{counting};
ghost use Rattle.undo_log.specs.Calls.{state};
ghost use Rattle.undo_log.specs.Closing.{header_of, ClosesRecord, Closes, Runs};
ghost use Rattle.undo_log.specs.Steps.{write, fence, enter};

use crate::{Log, LogFault, Place};
use header::{Header, encode};
use layout::{BlockEntry, OpenRecord, Sizes};
use memory::Memory;

fn bit(bucket: u8) -> u32
    requires { bucket < 32 }
    ensures { result ≡ 2 ^ bucket }
{
    1 << bucket
}

// The entry that counts a record. A function, as the one below: the types are of crates that close no record.
fn counted(held: &BlockEntry, opened: &OpenRecord) -> BlockEntry
    requires { (opened.now.id.bucket < 32) × (opened.now.id.slot < 4) }
    ensures { result ≡ counting held.now opened.now.id.bucket opened.now.id.slot }
{
    BlockEntry {
        vector: held.vector | bit(opened.id.bucket),
        current: opened.id.bucket,
        closed: opened.id.slot + 1,
    }
}

fn header_of(sizes: &Sizes, held: &BlockEntry, was: u8, core: u8, opened: &OpenRecord) -> Header
    ensures { result ≡ header_of sizes.now held.now was core opened.now }
{
    let before = if opened.id.slot == 0 {
        held.current
    } else {
        was
    };
    Header {
        lines: opened.lines,
        count: opened.count,
        core,
        before,
        number: held.records(sizes),
    }
}

impl<M: Memory> Log<M> {
    // Writes a header, fences, and enters what counts its record.
    fn close_by(
        &mut self,
        place: Place,
        line: u16,
        bytes: &[u8; 64],
        core: u8,
        counts: BlockEntry,
    ) -> Result<(), LogFault>
        ensures { Runs (write line bytes.now place ∷ fence place ∷ enter core counts ∷ []) (state self.old) result (state self.new) }
    {
        self.write(place, line, bytes)?;
        self.fence(place)?;
        self.enter(core, counts);
        Ok(())
    }

    // Closes a record of a core.
    pub(crate) fn close_record(&mut self, core: u8, opened: OpenRecord) -> Result<(), LogFault>
        requires { (opened.id.bucket < 32) × (opened.id.slot < 4) }
        ensures { ClosesRecord (state self.old) core opened result (state self.new) }
    {
        let held = self.entry(core);
        let place = Place::Record {
            core,
            id: opened.id,
        };
        let was = self.before_at(core);
        let header = header_of(&self.sizes, &held, was, core, &opened);
        let line = self.line_of(opened.id, 0);
        let bytes = encode(&header);
        self.close_by(place, line, &bytes, core, counted(&held, &opened))?;
        self.note_closed(core, header.before);
        Ok(())
    }

    // Closes a core's open record, if it has one.
    pub fn close(&mut self, core: u8) -> Result<(), LogFault>
        ensures { Closes (state self.old) core result (state self.new) }
    {
        if core >= self.sizes.cores {
            return Err(LogFault::NoSuchCore { core });
        }
        match self.open_at(core) {
            Some(opened) => self.close_record(core, opened),
            None => Ok(()),
        }
    }
}
