// The check of every header, cores ascending and records newest first.
ghost use Rattle.std.specs.Prelude.{◌≡◌, ◌*◌, ◌≤◌, true, IfOk};
ghost use Rattle.undo_log.specs.Calls.{state, world, notes_of};
ghost use Rattle.recovery.specs.Check.{ready, tally, checked_in, Checks, Ends};
ghost use Rattle.recovery.specs.Walk.{walk_in};

use crate::walk::Cursor;
use memory::Memory;
use undo_log::{Log, LogFault};

// The records and entries of a core, or the place of the first header that fails.
fn check_core<M: Memory>(log: &Log<M>, core: u8) -> Result<(u32, u32), LogFault>
    // power may go at any operation of a memory, as at `Cursor::header`
    requires on { (world log.now).memory.on ≡ true }
    ensures few { IfOk result (λ n. (n.0 ≤ 8160) × (n.1 ≤ 255 * 8160)) }
    ensures tallied { result ≡ tally core (walk_in (state log.now) core) }
{
    let mut cursor = Cursor::newest(log, core);
    let records = cursor.left;
    let mut entries = 0;
    while let Some(found) = cursor.next(log)? {
        entries += u32::from(found.header.count);
    }
    Ok((records, entries))
}

fn check_cores<M: Memory>(log: &Log<M>) -> Result<(u32, u32), LogFault>
    // power may go at any operation of a memory, as at `Cursor::header`
    requires on { (world log.now).memory.on ≡ true }
    ensures { result ≡ checked_in (state log.now) }
{
    let mut records = 0;
    let mut entries = 0;
    for core in 0..log.sizes().cores {
        let (more, others) = check_core(log, core)?;
        records += more;
        entries += others;
    }
    Ok((records, entries))
}

// The memory has power, and the lines of the log.
fn is_ready<M: Memory>(log: &Log<M>) -> bool
    ensures { result ≡ ready (state log.now) }
{
    log.memory().is_on() && log.sizes().lines_needed() <= log.memory().line_count()
}

// Checks every closed record of every core: how many records and entries there are, or the first place that fails.
// By the rules the answer is a pair.
pub fn check<M: Memory>(log: &Log<M>) -> Result<(u32, u32), LogFault>
    ensures checks { Checks (state log.now) result }
    ensures ends { Ends (notes_of log.now).sizes (world log.now).block }
{
    if !is_ready(log) {
        return Err(LogFault::NotReady);
    }
    check_cores(log)
}
