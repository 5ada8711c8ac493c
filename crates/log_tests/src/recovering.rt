// Recovery: what it restores, whatever the unfenced lines became, and at whichever operation power goes.
use crate::common::{begin, held, record};
use layout::{BlockEntry, Sizes};
use memory::{Memory, MemoryFault, Operation};
use queued::Queued;
use recovery::recover;
use std::process::Abort;
use straight::Straight;
use undo_log::{Log, LogFault, Place};

// Core 0 logs lines 3 and 5 and again line 3, closing after each two; core 1 logs line 6. Each changes its lines.
fn update<M: Memory>(log: &mut Log<M>) -> Result<(), LogFault> {
    let first = Place::Core { core: 0 };
    let second = Place::Core { core: 1 };
    log.append(0, 3, &[0; 64])?;
    log.append(0, 5, &[0; 64])?;
    log.close(0)?;
    log.write_data(first, 3, &[7; 64])?;
    log.write_data(first, 5, &[7; 64])?;
    log.append(1, 6, &[0; 64])?;
    log.append(0, 3, &[7; 64])?;
    log.close(0)?;
    log.write_data(first, 3, &[9; 64])?;
    log.close(1)?;
    log.write_data(second, 6, &[8; 64])
}

fn data_lines_are_zero<M: Memory>(rt: &impl Abort, log: &Log<M>) {
    for line in 0..8 {
        assert_eq!(rt; log.memory().read(line), Ok([0; 64]));
    }
    assert_eq!(rt; log.entry(0), BlockEntry::empty());
    assert_eq!(rt; log.entry(1), BlockEntry::empty());
}

// Power goes after so many operations of the update, and then after so many of the recovery.
fn lose_power<M: Memory>(rt: &impl Abort, log: &mut Log<M>, left: u32, again: u32) {
    begin(rt, log, left);
    let updated = update(log);
    assert_eq!(rt; updated.is_ok(), left >= 14);
    log.cut();
    log.power_up(again);
    if recover(log).is_err() {
        log.cut();
        log.power_up(100);
        assert!(rt; recover(log).is_ok());
    }
    data_lines_are_zero(rt, log);
}

// Every number of operations left to the update with every number left to the recovery.
fn at_each_operation<F: FnMut(u32, u32)>(mut run: F)
    requires { F.IsAlwaysCallable run }
{
    for left in 0..15 {
        for again in 0..7 {
            run(left, again);
        }
    }
}

#[test]
fn on_straight_memory(rt: HostRuntime) {
    at_each_operation(|left, again| {
        let mut bytes = [0; 2560];
        let mut memory = Straight::new(&mut bytes);
        lose_power(&rt, &mut Log::new(&mut memory), left, again);
    });
}

#[test]
fn on_queued_memory(rt: HostRuntime) {
    at_each_operation(|left, again| {
        let mut bytes = [0; 2560];
        let mut memory = Queued::new(&mut bytes, u32::MAX);
        lose_power(&rt, &mut Log::new(&mut memory), left, again);
    });
}

// Newest first: line 3 was logged with 0 and then with 7, and has 0 again; three records, four entries.
#[test]
fn the_first_content_comes_back(rt: HostRuntime) {
    let mut bytes = [0; 2560];
    let mut log = Log::new(Straight::new(&mut bytes));
    begin(&rt, &mut log, 14);
    assert_eq!(rt; update(&mut log), Ok(()));
    assert_eq!(rt; log.memory().read(3), Ok([9; 64]));
    log.cut();
    assert_eq!(rt; recover(&mut log), Err(LogFault::NotReady), "power is off");
    log.power_up(100);
    assert_eq!(rt; recovery::check(&log), Ok((3, 4)));
    assert_eq!(rt; recover(&mut log), Ok((3, 4)));
    assert_eq!(rt;
        log.memory().operations_left(),
        100 - 6,
        "four writes and two fences"
    );
    data_lines_are_zero(&rt, &log);
    assert_eq!(rt; recover(&mut log), Ok((0, 0)), "nothing is logged any more");
}

// Recovery's fence names the first record of the update, and a write the record that is undone.
#[test]
fn faults_of_a_recovery(rt: HostRuntime) {
    let faults = [
        (1, Operation::Write { line: 3 }),
        (0, Operation::Write { line: 5 }),
        (0, Operation::Write { line: 3 }),
        (0, Operation::Fence),
    ];
    for (left, (slot, operation)) in (0..).zip(faults) {
        let mut bytes = [0; 2560];
        let mut log = Log::new(Straight::new(&mut bytes));
        begin(&rt, &mut log, 14);
        assert_eq!(rt; update(&mut log), Ok(()));
        log.cut();
        log.power_up(left);
        let place = record(0, 0, slot);
        let fault = MemoryFault::NoPower { operation };
        assert_eq!(rt; recover(&mut log), Err(LogFault::Memory { place, fault }));
        assert_eq!(rt; log.entry(0), held(1, 0, 2));
    }
}

// 32 buckets of 4 records of 7 entries: the whole log is one core's.
#[test]
fn a_full_log(rt: HostRuntime) {
    let sizes = Sizes {
        data_lines: 8,
        buckets: 32,
        records: 4,
        cores: 1,
        cache_lines: 1,
    };
    let mut bytes = [0; 66048];
    let mut log = Log::new(Straight::new(&mut bytes));
    assert_eq!(rt; log.start(sizes, &[BlockEntry::empty()]), Ok(()));
    log.power_up(10000);
    for i in 0..896u16 {
        assert_eq!(rt; log.append(0, i % 8, &[(i / 8 % 256) as u8; 64]), Ok(()));
    }
    assert_eq!(rt; log.entry(0), held(u32::MAX, 31, 4));
    assert!(rt; !log.has_room(0));
    log.cut();
    log.power_up(897);
    assert_eq!(rt; recover(&mut log), Ok((128, 896)));
    assert_eq!(rt; log.memory().operations_left(), 0);
    assert_eq!(rt; log.memory().read(7), Ok([0; 64]));
}
