// Appending: a line's old content becomes the next entry of its core's open record, which is closed at the seventh.
ghost use Rattle.std.specs.Prelude.{◌≡◌, ◌<◌, true, ◌&&◌, is_some, nat_lt, Some};
ghost use Rattle.undo_log.specs.Append.{target, AppendsTo, Appends};
ghost use Rattle.undo_log.specs.Calls.{state, notes_of};
ghost use Rattle.undo_log.specs.Closing.{open_at};
ghost use Rattle.undo_log.specs.Open.{open_fits, opening, with_line, names_line};

use crate::{Log, LogFault, Place};
use buckets::lowest_free;
use layout::{OpenRecord, RecordId};
use memory::Memory;

// A record with no entry yet. A function, as the one below: the type is of a crate that opens no record.
fn opening(id: RecordId) -> OpenRecord
    ensures { result ≡ opening id.bucket id.slot }
{
    OpenRecord {
        id,
        count: 0,
        lines: [0; 7],
    }
}

// The record with one more entry, of a line.
fn with_line(opened: &OpenRecord, line: u16) -> OpenRecord
    requires { opened.now.count < 7 }
    ensures { result ≡ with_line opened.now line }
{
    let mut lines = opened.lines;
    lines[usize::from(opened.count)] = line;
    OpenRecord {
        count: opened.count + 1,
        lines,
        ..*opened
    }
}

impl<M: Memory> Log<M> {
    // The record that takes a core's next entry.
    fn record_for(&self, core: u8) -> Option<OpenRecord>
        ensures is { result ≡ target (state self.now) core }
        ensures fits { open_fits result ≡ true }
    {
        if let Some(opened) = self.open_at(core) {
            return Some(opened);
        }
        let held = self.entry(core);
        let next = RecordId {
            bucket: held.current,
            slot: held.closed,
        };
        if next.is_in(&self.sizes) {
            return Some(opening(next));
        }
        let bucket = lowest_free(&self.block, &self.noted.open, self.sizes.buckets)?;
        Some(opening(RecordId { bucket, slot: 0 }))
    }

    // There is room for one more entry of a core.
    pub fn has_room(&self, core: u8) -> bool
        ensures { result ≡ (nat_lt core self.now.sizes.cores && is_some (target (state self.now) core)) }
    {
        core < self.sizes.cores && self.record_for(core).is_some()
    }

    // A core's open record has an entry of a line.
    pub fn names(&self, core: u8, line: u16) -> bool
        ensures { result ≡ names_line line (open_at (notes_of self.now) core) }
    {
        self.open_at(core).is_some_and(|opened| {
            let named = &opened.lines[..usize::from(opened.count)];
            named.contains(&line)
        })
    }

    fn append_to(
        &mut self,
        core: u8,
        opened: OpenRecord,
        line: u16,
        content: &[u8; 64],
    ) -> Result<(), LogFault>
        requires { open_fits (Some opened) ≡ true }
        ensures { AppendsTo (state self.old) core opened line content.now result (state self.new) }
    {
        let place = Place::Record {
            core,
            id: opened.id,
        };
        let at = self.line_of(opened.id, opened.count + 1);
        self.write(place, at, content)?;
        let more = with_line(&opened, line);
        if more.count == 7 {
            return self.close_record(core, more);
        }
        self.note_open(core, more);
        Ok(())
    }

    // Writes a data line's old content as the next entry of a core.
    pub fn append(&mut self, core: u8, line: u16, content: &[u8; 64]) -> Result<(), LogFault>
        ensures { Appends (state self.old) core line content.now result (state self.new) }
    {
        if core >= self.sizes.cores {
            return Err(LogFault::NoSuchCore { core });
        }
        if line >= self.sizes.data_lines {
            return Err(LogFault::NoDataLine { line });
        }
        let opened = self.record_for(core).ok_or(LogFault::NoRoom { core })?;
        self.append_to(core, opened, line, content)
    }
}
