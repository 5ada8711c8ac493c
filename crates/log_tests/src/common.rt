// A small log for the tests: 40 lines.
use layout::{BlockEntry, RecordId, Sizes};
use memory::Memory;
use std::process::Abort;
use undo_log::{Log, LogFault, Place};

pub(crate) const SIZES: Sizes = Sizes {
    data_lines: 8,
    buckets: 2,
    records: 2,
    cores: 2,
    cache_lines: 4,
};

pub(crate) fn held(vector: u32, current: u8, closed: u8) -> BlockEntry {
    BlockEntry {
        vector,
        current,
        closed,
    }
}

pub(crate) fn record(core: u8, bucket: u8, slot: u8) -> Place {
    Place::Record {
        core,
        id: RecordId { bucket, slot },
    }
}

// Starts a log with an empty block, and powers it up.
pub(crate) fn begin<M: Memory>(rt: &impl Abort, log: &mut Log<M>, left: u32) {
    assert_eq!(rt; log.start(SIZES, &[BlockEntry::empty(); 2]), Ok(()));
    log.power_up(left);
}
