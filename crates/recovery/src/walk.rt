// The walk over a core's closed records, newest first; it writes nothing.
ghost use Rattle.std.specs.Prelude.{◌≡◌, ◌≤◌, true};
ghost use Rattle.undo_log.specs.Calls.{state, world};
ghost use Rattle.recovery.specs.Cursor.{newest, next_id, header_here, Next};
ghost use Rattle.recovery.specs.Walk.{fits};

use header::{Header, decode};
use layout::{BlockEntry, NO_BUCKET, RecordId, Sizes};
use memory::Memory;
use undo_log::{Log, LogFault};

// A closed record as the walk finds it. The definitions of crates above speak of it.
#[derive(Clone, Copy)]
pub struct Found {
    pub id: RecordId,
    pub header: Header,
}

impl Found {
    // Where the walk goes from here: from record 0 of a bucket to the last of the bucket before.
    fn onward(&self, sizes: &Sizes) -> RecordId
        ensures { result ≡ next_id sizes.now self.now.id self.now.header }
    {
        if self.id.slot == 0 {
            RecordId {
                bucket: self.header.before,
                slot: sizes.records.saturating_sub(1),
            }
        } else {
            RecordId {
                slot: self.id.slot - 1,
                ..self.id
            }
        }
    }
}

// How far a walk has come. It is no Iterator: undoing writes to the log between its steps, so it cannot hold the log.
#[derive(Drop)]
pub(crate) struct Cursor {
    core: u8,
    held: BlockEntry,
    // records to come; the number of the next in its update is one less
    pub(crate) left: u32,
    // the next record
    id: RecordId,
}

// The walk is most of a check: inlined, since else what it answers is copied from call to call, and a check takes twice as long.
impl Cursor {
    // At a core's newest record.
    #[inline(always)]
    pub(crate) fn newest<M: Memory>(log: &Log<M>, core: u8) -> Cursor
        ensures is { result ≡ newest (state log.now) core }
        ensures few { result.left ≤ 8160 }
    {
        let held = log.entry(core);
        Cursor {
            core,
            held,
            left: held.records(&log.sizes()),
            id: RecordId {
                bucket: held.current,
                slot: held.closed.saturating_sub(1),
            },
        }
    }

    fn fits(&self, sizes: &Sizes, number: u32, header: &Header) -> bool
        ensures { result ≡ fits sizes.now self.now.core self.now.held number header.now }
    {
        let linked = if number < u32::from(sizes.records) {
            header.before == NO_BUCKET
        } else {
            self.held.has_bucket(header.before)
        };
        header.core == self.core && header.number == number && linked
    }

    // The next record's header, if there is such a record, numbered so, and its header is good and fits.
    #[inline(always)]
    fn header<M: Memory>(&self, log: &Log<M>, number: u32) -> Option<Header>
        // power may go at any operation of a memory, so that it is on cannot be a fact of the log's type
        requires on { (world log.now).memory.on ≡ true }
        ensures { result ≡ header_here (state log.now) self.now number }
    {
        let sizes = log.sizes();
        if !self.id.is_in(&sizes) {
            return None;
        }
        let line = self.id.header_line(&sizes) as u16;
        let bytes = log.memory().read(line).ok()?;
        decode(&sizes, &bytes).filter(|header| self.fits(&sizes, number, header))
    }

    // The next record; none after record 0 of the update, and a fault where a header fails.
    #[inline(always)]
    pub(crate) fn next<M: Memory>(&mut self, log: &Log<M>) -> Result<Option<Found>, LogFault>
        requires on { (world log.now).memory.on ≡ true }
        ensures { Next (state log.now) self.old result self.new }
    {
        let Some(number) = self.left.checked_sub(1) else {
            return Ok(None);
        };
        let Cursor { core, id, .. } = *self;
        let header = self
            .header(log, number)
            .ok_or(LogFault::BadHeader { core, id })?;
        let found = Found { id, header };
        self.left = number;
        self.id = found.onward(&log.sizes());
        Ok(Some(found))
    }
}
