// What a cut right after an append or a close leaves to be found.
use crate::common::{begin, held};
use layout::BlockEntry;
use memory::Memory;
use queued::Queued;
use std::process::Abort;
use straight::Straight;
use survival::{append_and_cut, close_and_cut};
use undo_log::{Log, LogFault};

// So many entries, and then one more with a cut: only the seventh closes its record, and that is found.
fn append_after<M: Memory>(rt: &impl Abort, log: &mut Log<M>, count: u16) {
    begin(rt, log, 100);
    for line in 0..count {
        assert_eq!(rt; log.append(0, line, &[0; 64]), Ok(()));
    }
    assert_eq!(rt; append_and_cut(log, 0, 7, &[0; 64]), Ok(()));
    log.power_up(0);
    let found = if count == 6 { (1, 7) } else { (0, 0) };
    assert_eq!(rt; recovery::check(log), Ok(found));
}

#[test]
fn an_append_and_a_cut(rt: HostRuntime) {
    for count in 0..7 {
        let mut bytes = [0; 2560];
        append_after(&rt, &mut Log::new(&mut Straight::new(&mut bytes)), count);
        append_after(
            &rt,
            &mut Log::new(&mut Queued::new(&mut bytes, u32::MAX)),
            count,
        );
    }
}

// Core 1 closes while core 0 has a record open: one is found, and the other is not.
#[test]
fn a_close_and_a_cut(rt: HostRuntime) {
    let mut bytes = [0; 2560];
    let mut memory = Queued::new(&mut bytes, u32::MAX);
    let mut log = Log::new(&mut memory);
    begin(&rt, &mut log, 100);
    assert_eq!(rt; log.append(0, 3, &[0; 64]), Ok(()));
    assert_eq!(rt; log.append(1, 6, &[0; 64]), Ok(()));
    assert_eq!(rt; close_and_cut(&mut log, 1), Ok(()));
    assert_eq!(rt; log.entry(0), BlockEntry::empty());
    assert_eq!(rt; log.entry(1), held(2, 1, 1));
    assert!(rt; !log.names(0, 3), "open records go with the power");
    log.power_up(0);
    assert_eq!(rt; recovery::check(&log), Ok((1, 1)));
}
