// The sizes of a log, where its records lie, the entries of the block, and open records.
#![tactic(auto)]

pub use block::{BlockEntry, NO_BUCKET, is_block};
pub use open::OpenRecord;
pub use places::RecordId;
pub use sizes::Sizes;

mod block;
mod open;
mod places;
mod sizes;
