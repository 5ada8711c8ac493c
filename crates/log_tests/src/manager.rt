// The log manager: where entries go, when a record is closed, and when there is no room.
use crate::common::{SIZES, begin, held, record};
use layout::{BlockEntry, Sizes};
use memory::{Memory, MemoryFault, Operation};
use std::process::Abort;
use straight::Straight;
use undo_log::{Log, LogFault, Place};

fn append_lines<M: Memory>(rt: &impl Abort, log: &mut Log<M>, core: u8, count: u16) {
    for i in 0..count {
        assert_eq!(rt; log.append(core, i % 8, &[(i % 256) as u8; 64]), Ok(()));
    }
}

// Six entries leave a record open; the seventh closes it.
#[test]
fn seven_entries(rt: HostRuntime) {
    let mut bytes = [0; 2560];
    let mut log = Log::new(Straight::new(&mut bytes));
    begin(&rt, &mut log, 100);
    append_lines(&rt, &mut log, 0, 6);
    assert_eq!(rt; log.entry(0), BlockEntry::empty());
    assert!(rt; log.names(0, 5));
    assert!(rt; !log.names(0, 6));
    assert!(rt; !log.names(1, 5));
    assert_eq!(rt; log.append(0, 6, &[6; 64]), Ok(()));
    assert_eq!(rt; log.entry(0), held(1, 0, 1));
    assert!(rt; !log.names(0, 5));
    assert_eq!(rt; log.memory().operations_left(), 100 - 9);
    assert_eq!(rt; log.memory().read(15), Ok([6; 64]));
}

// Two records fill bucket 0; the third opens bucket 1, and the fifth finds no bucket.
#[test]
fn full_bucket_to_the_next(rt: HostRuntime) {
    let mut bytes = [0; 2560];
    let mut log = Log::new(Straight::new(&mut bytes));
    begin(&rt, &mut log, 100);
    append_lines(&rt, &mut log, 1, 14);
    assert_eq!(rt; log.entry(1), held(1, 0, 2));
    append_lines(&rt, &mut log, 1, 7);
    assert_eq!(rt; log.entry(1), held(3, 1, 1));
    assert!(rt; log.has_room(1));
    assert!(rt; !log.has_room(0), "both buckets are core 1's");
    append_lines(&rt, &mut log, 1, 7);
    assert_eq!(rt; log.entry(1), held(3, 1, 2));
    assert!(rt; !log.has_room(1));
    assert_eq!(rt;
        log.append(1, 0, &[0; 64]),
        Err(LogFault::NoRoom { core: 1 })
    );
}

// An open record reserves its bucket, and its closing is by its own core's header.
#[test]
fn a_bucket_with_an_open_record_is_not_free(rt: HostRuntime) {
    let mut bytes = [0; 2560];
    let mut log = Log::new(Straight::new(&mut bytes));
    begin(&rt, &mut log, 100);
    assert_eq!(rt; log.append(0, 3, &[1; 64]), Ok(()));
    assert_eq!(rt; log.append(1, 4, &[2; 64]), Ok(()));
    assert_eq!(rt; log.memory().read(9), Ok([1; 64]));
    assert_eq!(rt; log.memory().read(25), Ok([2; 64]));
    assert_eq!(rt; log.entry(0), BlockEntry::empty());
    assert_eq!(rt; log.entry(1), BlockEntry::empty());
    assert_eq!(rt; log.close(1), Ok(()));
    assert_eq!(rt; log.entry(1), held(2, 1, 1));
    let mut entries = [BlockEntry::empty(); 2];
    assert_eq!(rt; log.read_block(&mut entries), Ok(()));
    assert_eq!(rt; entries[0], BlockEntry::empty());
    assert_eq!(rt; entries[1], held(2, 1, 1));
    let mut three = [held(1, 2, 3); 3];
    assert_eq!(rt; log.read_block(&mut three), Err(LogFault::UnfitList));
    assert_eq!(rt; three[0], held(1, 2, 3));
}

#[test]
fn one_bucket_of_one_record(rt: HostRuntime) {
    let sizes = Sizes {
        data_lines: 1,
        buckets: 1,
        records: 1,
        cores: 1,
        cache_lines: 1,
    };
    let mut bytes = [0; 576];
    let mut log = Log::new(Straight::new(&mut bytes));
    assert_eq!(rt; log.start(sizes, &[BlockEntry::empty()]), Ok(()));
    log.power_up(100);
    assert_eq!(rt; log.append(0, 0, &[9; 64]), Ok(()));
    assert_eq!(rt; log.close(0), Ok(()));
    assert_eq!(rt; log.close(0), Ok(()), "nothing is open");
    assert_eq!(rt; log.entry(0), held(1, 0, 1));
    assert!(rt; !log.has_room(0));
    log.empty(0);
    assert!(rt; log.has_room(0));
}

#[test]
fn refusals(rt: HostRuntime) {
    let mut bytes = [0; 2560];
    let mut log = Log::new(Straight::new(&mut bytes));
    assert_eq!(rt;
        log.append(0, 0, &[0; 64]),
        Err(LogFault::NoSuchCore { core: 0 }),
        "not started"
    );
    let wide = Sizes {
        data_lines: 9,
        buckets: 2,
        records: 2,
        cores: 2,
        cache_lines: 4,
    };
    assert_eq!(rt;
        log.start(wide, &[BlockEntry::empty(); 2]),
        Err(LogFault::UnfitSizes)
    );
    assert_eq!(rt;
        log.start(SIZES, &[held(1, 0, 1), held(1, 0, 1)]),
        Err(LogFault::BrokenBlock)
    );
    assert_eq!(rt; log.start(SIZES, &[BlockEntry::empty(); 2]), Ok(()));
    assert_eq!(rt;
        log.append(2, 0, &[0; 64]),
        Err(LogFault::NoSuchCore { core: 2 })
    );
    assert_eq!(rt; log.close(2), Err(LogFault::NoSuchCore { core: 2 }));
    assert_eq!(rt;
        log.append(0, 8, &[0; 64]),
        Err(LogFault::NoDataLine { line: 8 })
    );
    assert_eq!(rt;
        log.write_data(Place::Core { core: 0 }, 8, &[0; 64]),
        Err(LogFault::NoDataLine { line: 8 })
    );
    assert!(rt; !log.has_room(2));
}

// Power goes at the header's write or at the fence; the fault is the memory's, whole, with the record.
#[test]
fn power_faults_name_the_record(rt: HostRuntime) {
    for (left, operation) in [(1, Operation::Write { line: 8 }), (2, Operation::Fence)] {
        let mut bytes = [0; 2560];
        let mut log = Log::new(Straight::new(&mut bytes));
        begin(&rt, &mut log, left);
        assert_eq!(rt; log.append(1, 4, &[2; 64]), Ok(()));
        let place = record(1, 0, 0);
        let fault = MemoryFault::NoPower { operation };
        assert_eq!(rt; log.close(1), Err(LogFault::Memory { place, fault }));
        assert_eq!(rt; log.entry(1), BlockEntry::empty());
    }
}
