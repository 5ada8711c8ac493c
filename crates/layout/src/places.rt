// Where the records of a log lie in the memory.
ghost use Rattle.std.specs.Prelude.{◌≡◌, ◌≤◌};
ghost use Rattle.layout.specs.Places.{in_log, header_line, entry_line, Apart};

use crate::Sizes;

// A record of the log: its bucket, and its number there.
#[derive(Clone, Copy, PartialEq, Eq, Debug)]
pub struct RecordId {
    pub bucket: u8,
    pub slot: u8,
}

impl RecordId {
    // There is such a record.
    pub fn is_in(self, sizes: &Sizes) -> bool
        ensures { result ≡ in_log sizes.now self.bucket self.slot }
    {
        self.bucket < sizes.buckets && self.slot < sizes.records
    }

    // The line of the record's header. A number that is no line of the log comes out for a record that is not there.
    pub fn header_line(self, sizes: &Sizes) -> u32
        ensures at { result ≡ header_line sizes.now self.bucket self.slot }
        ensures apart { Apart sizes.now self.bucket self.slot 0 }
        ensures most { result ≤ 587775 }
    {
        u32::from(sizes.data_lines)
            + 8 * (u32::from(self.bucket) * u32::from(sizes.records) + u32::from(self.slot))
    }

    // The line of the record's entry, from 1 to 7.
    pub fn entry_line(self, sizes: &Sizes, entry: u8) -> u32
        ensures at { result ≡ entry_line sizes.now self.bucket self.slot «entry» }
        ensures apart { Apart sizes.now self.bucket self.slot «entry» }
    {
        self.header_line(sizes) + u32::from(entry)
    }
}
