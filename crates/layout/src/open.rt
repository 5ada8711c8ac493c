// A record that is not yet closed, as a core has it at hand.
use crate::RecordId;

// Seven lines and a count, as in the header that it becomes; `Copy`, for a fixed table.
#[derive(Clone, Copy, PartialEq, Eq, Debug)]
pub struct OpenRecord {
    pub id: RecordId,
    // entries so far
    pub count: u8,
    // the data line of each entry, 0 for those to come
    pub lines: [u16; 7],
}
