// The manager's own calls: they bring about and keep what the law asks, logs in order.
ghost use Rattle.std.specs.Prelude.{◌≡◌};
ghost use Rattle.undo_log.specs.Append.{Appends};
ghost use Rattle.undo_log.specs.Calls.{state, world, powered, WritesData, Empties};
ghost use Rattle.undo_log.specs.Closing.{Takes, Closes};
ghost use Rattle.undo_log.specs.Steps.{fence};
ghost use Rattle.survival.specs.Calls.{Begins, OrderlyStart, OrderlyAppend, OrderlyClose, AllOrderly, OrderlyEmpty};
ghost use Rattle.survival.specs.Survives.{SurvivesAppend, SurvivesClose};

use layout::{BlockEntry, Sizes};
use memory::Memory;
use undo_log::{Log, LogFault, Place};

// Starts a log with an empty block; the memory is cut.
pub fn begin<M: Memory>(log: &mut Log<M>, sizes: Sizes) -> Result<(), LogFault>
    ensures did { Begins sizes (state log.old) result (state log.new) }
    ensures orderly { OrderlyStart result (state log.new) }
{
    // a call may not allocate, so the entries are an array of the largest size
    let entries = [BlockEntry::empty(); 32];
    // by `as`: a proof sees nothing through `usize::from` here
    let cores = sizes.cores.min(32) as usize;
    log.start(sizes, &entries[..cores])
}

pub fn power_up<M: Memory>(log: &mut Log<M>, operations: u32)
    ensures did { state log.new ≡ powered (state log.old) operations }
    // this speaks of two states, and a cut breaks order, so that no type can hold it
    ensures orderly { AllOrderly (state log.old) (state log.new) }
{
    log.power_up(operations);
}

// Appends an entry of a data line for a core.
pub fn log_line<M: Memory>(
    log: &mut Log<M>,
    core: u8,
    line: u16,
    content: &[u8; 64],
) -> Result<(), LogFault>
    ensures did { Appends (state log.old) core line content.now result (state log.new) }
    ensures orderly { OrderlyAppend (state log.old) core line result (state log.new) }
    ensures found { SurvivesAppend (state log.old) core line content.now result (world log.new) }
{
    log.append(core, line, content)
}

// Closes a core's open record, if it has one.
pub fn close_record<M: Memory>(log: &mut Log<M>, core: u8) -> Result<(), LogFault>
    ensures did { Closes (state log.old) core result (state log.new) }
    ensures orderly { OrderlyClose (state log.old) core result (state log.new) }
    ensures found { SurvivesClose (state log.old) core result (world log.new) }
{
    log.close(core)
}

pub fn write_data<M: Memory>(
    log: &mut Log<M>,
    place: Place,
    line: u16,
    content: &[u8; 64],
) -> Result<(), LogFault>
    ensures did { WritesData place line content.now (state log.old) result (state log.new) }
    ensures orderly { AllOrderly (state log.old) (state log.new) }
{
    log.write_data(place, line, content)
}

pub fn fence<M: Memory>(log: &mut Log<M>, place: Place) -> Result<(), LogFault>
    ensures did { Takes (fence place) (state log.old) result (state log.new) }
    ensures orderly { AllOrderly (state log.old) (state log.new) }
{
    log.fence(place)
}

// Empties a core's entry, and with it the core's log.
pub fn empty_log<M: Memory>(log: &mut Log<M>, core: u8)
    ensures did { Empties core (state log.old) (state log.new) }
    ensures orderly { OrderlyEmpty (state log.old) core (state log.new) }
{
    log.empty(core);
}
