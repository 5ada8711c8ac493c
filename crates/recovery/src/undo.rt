// Undoing: the logged lines are written back, newest record first and in each the last entry first.
ghost use Rattle.std.specs.Prelude.{◌≡◌, ◌<◌, true, length, is_ok, OnOk};
ghost use Rattle.memory.specs.Meaning.{content_at};
ghost use Rattle.layout.specs.Sizes.{data_lines_of};
ghost use Rattle.undo_log.specs.Calls.{state, world, notes_of};
ghost use Rattle.undo_log.specs.Closing.{blank_notes, Takes, Runs};
ghost use Rattle.undo_log.specs.Steps.{write, Ran};
ghost use Rattle.recovery.specs.Check.{ready, checked_in};
ghost use Rattle.recovery.specs.Kept.{Kept, Emptied, Undoable};
ghost use Rattle.recovery.specs.Undo.{undoing_record_in, undoing_core_in, undoing_in, Recovers};
ghost use Rattle.recovery.specs.Undone.{logged_in, Restored};
ghost use Rattle.recovery.specs.Walk.{walk_in, found};

use crate::check;
use crate::walk::{Cursor, Found};
use memory::Memory;
use undo_log::{Log, LogFault, Place};

// Writes the content of one line to another, which is a data line.
fn restore<M: Memory>(log: &mut Log<M>, place: Place, from: u16, to: u16) -> Result<(), LogFault>
    // power may go at any operation of a memory, as at `Cursor::header`
    requires on { (world log.old).memory.on ≡ true }
    requires inside { from < length (world log.old).memory.lines }
    requires below { to < data_lines_of (notes_of log.old).sizes }
    ensures { Takes (write to (content_at (world log.old).memory from) place) (state log.old) result (state log.new) }
{
    let content = log.memory().read(from)?;
    log.write_data(place, to, &content)
}

// Writes the entries of a record back, the last first.
fn undo_record<M: Memory>(log: &mut Log<M>, core: u8, found: &Found) -> Result<(), LogFault>
    requires { Undoable (state log.old) found.now }
    ensures ran { Ran (undoing_record_in (state log.old) core found.now) (world log.old) result (world log.new) }
    ensures kept { OnOk result (Kept (state log.old) (state log.new)) }
    ensures rest { notes_of log.new ≡ notes_of log.old }
{
    let Found { id, header } = *found;
    let place = Place::Record { core, id };
    let sizes = log.sizes();
    // the rules have the used addresses visited by index, downward
    for i in (0..header.count).rev() {
        let from = id.entry_line(&sizes, i + 1) as u16;
        // by `as`: a proof sees nothing through `usize::from` here
        restore(log, place, from, header.lines[i as usize])?;
    }
    Ok(())
}

// Undoes the records of a core, the newest first; then fences and empties its entry.
fn undo_core<M: Memory>(log: &mut Log<M>, core: u8) -> Result<(), LogFault>
    requires blank { notes_of log.old ≡ blank_notes (notes_of log.old).sizes }
    requires able { ready (state log.old) ≡ true }
    requires passed { found (walk_in (state log.old) core) ≡ true }
    ensures ran { Ran (undoing_core_in (state log.old) core) (world log.old) result (world log.new) }
    ensures kept { OnOk result (Emptied core (state log.old) (state log.new)) }
    ensures rest { notes_of log.new ≡ notes_of log.old }
{
    let mut cursor = Cursor::newest(log, core);
    let mut last = None;
    while let Some(found) = cursor.next(log)? {
        undo_record(log, core, &found)?;
        last = Some(found.id);
    }
    // a core without records gets no fence
    if let Some(id) = last {
        log.fence(Place::Record { core, id })?;
        log.empty(core);
    }
    Ok(())
}

// Undoes the records of every core, which the check has passed.
fn undo_cores<M: Memory>(log: &mut Log<M>) -> Result<(), LogFault>
    requires blank { notes_of log.old ≡ blank_notes (notes_of log.old).sizes }
    requires able { ready (state log.old) ≡ true }
    requires passed { is_ok (checked_in (state log.old)) ≡ true }
    ensures { Runs (undoing_in (state log.old)) (state log.old) result (state log.new) }
{
    for core in 0..log.sizes().cores {
        undo_core(log, core)?;
    }
    Ok(())
}

// Checks every closed record, and then undoes them all: how many records and entries are undone.
// By the rules the answer is a pair.
pub fn recover<M: Memory>(log: &mut Log<M>) -> Result<(u32, u32), LogFault>
    ensures recovers { Recovers (state log.old) result (state log.new) }
    ensures restored { OnOk result (Restored (logged_in (state log.old)) (world log.old).memory (world log.new).memory) }
{
    let undone = check(log)?;
    // once undoing begins no record is open any more
    log.forget();
    undo_cores(log)?;
    Ok(undone)
}
