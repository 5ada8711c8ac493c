// Headers that are good in themselves and wrong where they stand: the check refuses them by their place.
use crate::common::{SIZES, held};
use header::{Header, encode};
use layout::{BlockEntry, RecordId};
use lines::write_line;
use memory::Memory;
use straight::Straight;
use undo_log::{Log, LogFault};

// The header of a record with one entry, of line 3.
fn one_entry(core: u8, before: u8, number: u32) -> [u8; 64] {
    encode(&Header {
        lines: [3, 0, 0, 0, 0, 0, 0],
        count: 1,
        core,
        before,
        number,
    })
}

// What the check answers with these headers in bucket 0 (records 0 and 1) and bucket 1 (record 0), which core 0 has.
fn checked(headers: [[u8; 64]; 3]) -> Result<(u32, u32), LogFault> {
    let mut bytes = [0; 2560];
    for (line, header) in [8, 16, 24].into_iter().zip(&headers) {
        write_line(&mut bytes, line, header);
    }
    let mut log = Log::new(Straight::new(&mut bytes));
    log.start(SIZES, &[held(3, 1, 1), BlockEntry::empty()])?;
    log.power_up(0);
    recovery::check(&log)
}

fn refused(bucket: u8, slot: u8) -> Result<(u32, u32), LogFault> {
    Err(LogFault::BadHeader {
        core: 0,
        id: RecordId { bucket, slot },
    })
}

#[test]
fn as_it_should_be(rt: HostRuntime) {
    assert_eq!(rt;
        checked([
            one_entry(0, 255, 0),
            one_entry(0, 255, 1),
            one_entry(0, 0, 2),
        ]),
        Ok((3, 3))
    );
}

#[test]
fn a_wrong_core(rt: HostRuntime) {
    assert_eq!(rt;
        checked([
            one_entry(0, 255, 0),
            one_entry(1, 255, 1),
            one_entry(0, 0, 2),
        ]),
        refused(0, 1)
    );
}

#[test]
fn a_wrong_number(rt: HostRuntime) {
    assert_eq!(rt;
        checked([
            one_entry(0, 255, 0),
            one_entry(0, 255, 1),
            one_entry(0, 0, 3),
        ]),
        refused(1, 0)
    );
    assert_eq!(rt;
        checked([
            one_entry(0, 255, 1),
            one_entry(0, 255, 1),
            one_entry(0, 0, 2),
        ]),
        refused(0, 0)
    );
}

// The bucket before is none, where there is one; or one, where there is none.
#[test]
fn a_wrong_chain(rt: HostRuntime) {
    assert_eq!(rt;
        checked([
            one_entry(0, 255, 0),
            one_entry(0, 255, 1),
            one_entry(0, 255, 2),
        ]),
        refused(1, 0)
    );
    assert_eq!(rt;
        checked([
            one_entry(0, 1, 0),
            one_entry(0, 255, 1),
            one_entry(0, 0, 2),
        ]),
        refused(0, 0)
    );
}

// Bucket 1 is named as the bucket before itself: the walk leads back to it, and ends at a record that is not there.
#[test]
fn a_bucket_named_twice(rt: HostRuntime) {
    assert_eq!(rt;
        checked([
            one_entry(0, 255, 0),
            one_entry(0, 255, 1),
            one_entry(0, 1, 2),
        ]),
        refused(1, 1)
    );
}

#[test]
fn the_first_place_that_fails_is_named(rt: HostRuntime) {
    assert_eq!(rt;
        checked([[0; 64], [0; 64], one_entry(0, 0, 2),]),
        refused(0, 1)
    );
    assert_eq!(rt; checked([[0; 64], [0; 64], [0; 64],]), refused(1, 0));
}
