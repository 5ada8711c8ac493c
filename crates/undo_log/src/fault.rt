// Why a call of the log is refused, and at which operation on which record power went.
use layout::RecordId;
use memory::MemoryFault;

// What the log was at when an operation of the memory failed.
#[derive(Clone, Copy, PartialEq, Eq, Debug)]
pub enum Place {
    Nowhere,
    // a core at work that writes no record
    Core { core: u8 },
    // a record being written or undone
    Record { core: u8, id: RecordId },
}

#[derive(Clone, Copy, PartialEq, Eq, Debug)]
pub enum LogFault {
    // a size is out of its range, or the memory has not just the lines needed
    UnfitSizes,
    // the entries break a rule of the block
    BrokenBlock,
    // a list to be filled has not an entry for each core
    UnfitList,
    NoSuchCore { core: u8 },
    NoDataLine { line: u16 },
    // the core's next entry needs a bucket, and none is free
    NoRoom { core: u8 },
    // recovery finds power off, or fewer lines than needed
    NotReady,
    // a header fails the check
    BadHeader { core: u8, id: RecordId },
    // the memory's fault whole, and where
    Memory { place: Place, fault: MemoryFault },
}
