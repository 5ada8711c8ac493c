// What happens before the closing, in ten operations.
use layout::Sizes;
use memory::Memory;
use survival::{close_record, fence, log_line, power_up, write_data};
use undo_log::{Log, LogFault, Place};

pub(crate) const SIZES: Sizes = Sizes {
    data_lines: 8,
    buckets: 2,
    records: 2,
    cores: 2,
    cache_lines: 4,
};

// of the preparation
pub(crate) const OPERATIONS: u32 = 10;

pub(crate) const OLD: u8 = 1;

pub(crate) const NEW: u8 = 2;

// Each data line holds its old content, durable.
pub(crate) fn settle<M: Memory>(log: &mut Log<M>) -> Result<(), LogFault> {
    power_up(log, 9);
    for line in 0..SIZES.data_lines {
        write_data(log, Place::Nowhere, line, &[OLD; 64])?;
    }
    fence(log, Place::Nowhere)
}

// A core logs the old content of a line, closes the record, and changes the line.
fn change<M: Memory>(log: &mut Log<M>, core: u8, line: u16) -> Result<(), LogFault> {
    log_line(log, core, line, &[OLD; 64])?;
    close_record(log, core)?;
    write_data(log, Place::Core { core }, line, &[NEW; 64])
}

// Core 0 changes line 3, core 1 changes line 6; then core 0 has a record open with lines 3 and 5.
pub(crate) fn prepare<M: Memory>(log: &mut Log<M>) -> Result<(), LogFault> {
    change(log, 0, 3)?;
    change(log, 1, 6)?;
    log_line(log, 0, 3, &[NEW; 64])?;
    log_line(log, 0, 5, &[OLD; 64])
}
