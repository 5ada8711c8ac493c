// The header of a record as 64 bytes, and back: any 64 bytes are declined, or read as a header that is written as those
// very bytes.
#![tactic(auto)]

ghost use Rattle.std.specs.Prelude.{◌≡◌, Some};
ghost use Rattle.header.specs.Header.{written, line_in, lines_in, rest_good, read_header, Sensible};

use layout::{NO_BUCKET, Sizes};

// Seven lines and a count, as the format has seven address fields and a count.
#[derive(Clone, Copy, PartialEq, Eq, Debug)]
pub struct Header {
    // the data line of each entry, 0 for those not used
    pub lines: [u16; 7],
    // entries used
    pub count: u8,
    pub core: u8,
    // the bucket before this one in the same update, `NO_BUCKET` for the first: byte 58 of the format, by the rules
    pub before: u8,
    // the number of the record in its update, from 0
    pub number: u32,
}

// The bytes of a header.
pub fn encode(header: &Header) -> [u8; 64]
    ensures written { result ≡ written header.now }
    ensures back { (s : Sizes) → Sensible s header.now → read_header s result ≡ Some header.now }
{
    let mut bytes = [0; 64];
    // a loan of the chunks themselves would tell a proof nothing of what they hold after it
    for (i, line) in header.lines.iter().enumerate() {
        let address = 64 * u64::from(*line);
        bytes[8 * i..8 * i + 8].copy_from_slice(&address.to_le_bytes());
    }
    bytes[56..60].copy_from_slice(&[header.count, header.core, header.before, 0]);
    bytes[60..].copy_from_slice(&header.number.to_le_bytes());
    bytes
}

// The header in some bytes, if they are a good one: by what is good for some sizes, so it is no `TryFrom`.
pub fn decode(sizes: &Sizes, bytes: &[u8; 64]) -> Option<Header>
    ensures read { result ≡ read_header sizes.now bytes.now }
    ensures again { (h : Header) → result ≡ Some h → Sensible sizes.now h × (written h ≡ bytes.now) }
{
    if !rest_good(sizes, bytes) {
        return None;
    }
    let lines = lines_in(sizes, bytes)?;
    let [.., count, core, before, _, a, b, c, d] = *bytes;
    Some(Header {
        lines,
        count,
        core,
        before,
        number: u32::from_le_bytes([a, b, c, d]),
    })
}

// What stands behind the address fields is good.
fn rest_good(sizes: &Sizes, bytes: &[u8; 64]) -> bool
    ensures { result ≡ rest_good sizes.now bytes.now }
{
    let [.., count, core, before, zero, _, _, _, _] = *bytes;
    (1..=7).contains(&count)
        && core < sizes.cores
        && (before == NO_BUCKET || before < sizes.buckets)
        && zero == 0
}

// The lines of the address fields, if each field is good.
fn lines_in(sizes: &Sizes, bytes: &[u8; 64]) -> Option<[u16; 7]>
    ensures { result ≡ lines_in sizes.now bytes.now }
{
    let count = usize::from(bytes[56]);
    let (fields, _) = bytes.as_chunks::<8>();
    let mut lines = [0; 7];
    for (i, line) in lines.iter_mut().enumerate() {
        *line = line_in(sizes, i < count, u64::from_le_bytes(fields[i]))?;
    }
    Some(lines)
}

// The line of an address field: of a used one a data line, and of an unused one 0.
fn line_in(sizes: &Sizes, used: bool, address: u64) -> Option<u16>
    ensures { result ≡ line_in sizes.now used address }
{
    let is_good = if used {
        address % 64 == 0 && address < 64 * u64::from(sizes.data_lines)
    } else {
        address == 0
    };
    if is_good {
        u16::try_from(address / 64).ok()
    } else {
        None
    }
}
