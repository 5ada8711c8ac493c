// The sizes at both ends of their ranges, the places, and the rules of the block.
use crate::common::held;
use layout::{BlockEntry, RecordId, Sizes, is_block};

fn sizes(data_lines: u16, buckets: u8, records: u8, cores: u8, cache_lines: u8) -> Sizes {
    Sizes {
        data_lines,
        buckets,
        records,
        cores,
        cache_lines,
    }
}

#[test]
fn ranges(rt: HostRuntime) {
    assert!(rt; sizes(1, 1, 1, 1, 1).in_range());
    assert!(rt; sizes(512, 32, 4, 32, 64).in_range());
    assert!(rt; !sizes(0, 1, 1, 1, 1).in_range());
    assert!(rt; !sizes(1, 0, 1, 1, 1).in_range());
    assert!(rt; !sizes(1, 1, 0, 1, 1).in_range());
    assert!(rt; !sizes(1, 1, 1, 0, 1).in_range());
    assert!(rt; !sizes(1, 1, 1, 1, 0).in_range());
    assert!(rt; !sizes(513, 32, 4, 32, 64).in_range());
    assert!(rt; !sizes(512, 33, 4, 32, 64).in_range());
    assert!(rt; !sizes(512, 32, 5, 32, 64).in_range());
    assert!(rt; !sizes(512, 32, 4, 33, 64).in_range());
    assert!(rt; !sizes(512, 32, 4, 32, 65).in_range());
}

#[test]
fn lines(rt: HostRuntime) {
    let small = sizes(8, 2, 2, 2, 4);
    assert_eq!(rt; small.lines_needed(), 40);
    assert!(rt; small.fit(40));
    assert!(rt; !small.fit(39));
    assert!(rt; !small.fit(41));
    let second = RecordId { bucket: 0, slot: 1 };
    let last = RecordId { bucket: 1, slot: 1 };
    assert_eq!(rt; second.header_line(&small), 16);
    assert_eq!(rt; second.entry_line(&small, 3), 19);
    assert_eq!(rt; last.entry_line(&small, 7), 39);
    assert_eq!(rt; sizes(512, 32, 4, 32, 64).lines_needed(), 1536);
}

#[test]
fn blocks(rt: HostRuntime) {
    let small = sizes(8, 2, 2, 2, 4);
    let none = BlockEntry::empty();
    assert!(rt; is_block(&small, &[none, none]));
    assert!(rt; is_block(&small, &[held(3, 1, 2), none]));
    assert!(rt; is_block(&small, &[held(1, 0, 1), held(2, 1, 2)]));
    assert!(rt; !is_block(&small, &[none]), "an entry for each core");
    assert!(rt;
        !is_block(&small, &[held(0, 0, 0), none]),
        "empty is 0, 255, 0"
    );
    assert!(rt;
        !is_block(&small, &[held(4, 2, 1), none]),
        "bits below B only"
    );
    assert!(rt;
        !is_block(&small, &[held(1, 1, 1), none]),
        "the current bucket is in the vector"
    );
    assert!(rt;
        !is_block(&small, &[held(1, 0, 0), none]),
        "at least one closed record"
    );
    assert!(rt;
        !is_block(&small, &[held(1, 0, 3), none]),
        "at most R closed records"
    );
    assert!(rt;
        !is_block(&small, &[held(3, 1, 1), held(1, 0, 1)]),
        "no bucket in two vectors"
    );
}
