// What was logged and closed is found again after any cut, and what was not closed is not found: the law, on two calls of a
// log in order, and the manager's own calls, which keep it so.
#![tactic(auto)]

ghost use Rattle.undo_log.specs.Calls.{state, world};
ghost use Rattle.survival.specs.Survives.{ClosesAndCuts, SurvivesClose, AppendsAndCuts, SurvivesAppend};

pub use calls::{begin, close_record, empty_log, fence, log_line, power_up, write_data};
use memory::Memory;
use undo_log::{Log, LogFault};

mod calls;

// Closes a core's open record, and then power goes.
pub fn close_and_cut<M: Memory>(log: &mut Log<M>, core: u8) -> Result<(), LogFault>
    ensures did { ClosesAndCuts (state log.old) core result (state log.new) }
    ensures survives { SurvivesClose (state log.old) core result (world log.new) }
{
    let answer = log.close(core);
    log.cut();
    answer
}

// Appends an entry of a data line for a core, and then power goes.
pub fn append_and_cut<M: Memory>(
    log: &mut Log<M>,
    core: u8,
    line: u16,
    content: &[u8; 64],
) -> Result<(), LogFault>
    ensures did { AppendsAndCuts (state log.old) core line content.now result (state log.new) }
    ensures survives { SurvivesAppend (state log.old) core line content.now result (world log.new) }
{
    let answer = log.append(core, line, content);
    log.cut();
    answer
}
