// Headers, byte by byte.
use crate::common::SIZES;
use header::{Header, decode, encode};

fn two_entries() -> Header {
    Header {
        lines: [3, 7, 0, 0, 0, 0, 0],
        count: 2,
        core: 1,
        before: 255,
        number: 1,
    }
}

fn tells_the_same(header: &Header, bytes: &[u8; 64]) -> bool {
    encode(header) == *bytes
}

#[test]
fn each_field_has_its_place(rt: HostRuntime) {
    let bytes = encode(&two_entries());
    assert!(rt;
        bytes[0..8] == [192, 0, 0, 0, 0, 0, 0, 0],
        "64 times line 3"
    );
    assert!(rt;
        bytes[8..16] == [192, 1, 0, 0, 0, 0, 0, 0],
        "64 times line 7"
    );
    assert!(rt; bytes[16..56] == [0; 40]);
    assert!(rt; bytes[56..64] == [2, 1, 255, 0, 1, 0, 0, 0]);
}

#[test]
fn a_header_reads_back(rt: HostRuntime) {
    let bytes = encode(&two_entries());
    assert_eq!(rt; decode(&SIZES, &bytes), Some(two_entries()));
}

// Each byte in turn set to each value: the header is refused, or read and written back alike.
#[test]
fn spoilt_byte_by_byte(rt: HostRuntime) {
    let good = encode(&two_entries());
    let mut refused = 0u32;
    // each turn spoils a copy at one place, so there is no slice to go over
    for at in 0..64 {
        for value in 0..=255u8 {
            let mut bytes = good;
            bytes[at] = value;
            match decode(&SIZES, &bytes) {
                Some(header) => assert!(rt; tells_the_same(&header, &bytes)),
                None => refused = refused.saturating_add(1),
            }
        }
    }
    // Read are the bytes as they were, 64 times; lines 0, 1, 2 and 7 in the first address; lines 4, 5, 6 and 3 in the
    // second; 3 to 7 entries, since a used address may be 0; core 0; buckets 0 and 1; and every other number.
    let read = 64 + 4 + 4 + 5 + 1 + 2 + 4 * 255;
    assert_eq!(rt; refused, 64 * 256 - read);
}

// Every rule of a good header, broken alone.
#[test]
fn each_rule_refuses(rt: HostRuntime) {
    let good = encode(&two_entries());
    let spoils: [(usize, u8); 8] = [
        (56, 0),
        (56, 8),
        (1, 2),
        (0, 193),
        (16, 64),
        (57, 2),
        (58, 2),
        (59, 1),
    ];
    for (at, value) in spoils {
        let mut bytes = good;
        bytes[at] = value;
        assert!(rt; decode(&SIZES, &bytes).is_none());
    }
}
