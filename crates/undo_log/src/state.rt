// The log manager: the memory and the block, which outlive a loss of power, and the open records, which do not.
ghost use Rattle.std.specs.Prelude.{◌≡◌, ℕ, true, length, None, slice_index_or};
ghost use Rattle.layout.specs.Sizes.{Bounded};
ghost use Rattle.undo_log.specs.Open.{open_fits};

use crate::noted::Noted;
use arrayvec::ArrayVec;
use layout::{BlockEntry, Sizes};
use memory::Memory;

// The tables have a place for each core.
#[derive(Drop)]
pub struct Log<M: Memory> {
    pub(crate) memory: M,
    // all 0 until the log is started
    pub(crate) sizes: Sizes,
    // a list by the rules, so apart from what is noted of the cores
    pub(crate) block: ArrayVec<BlockEntry, 32>,
    pub(crate) noted: Noted,
    ghost bounded: { Bounded sizes },
    ghost entries: { length block.items ≡ sizes.cores },
    ghost opens: { length noted.«open».items ≡ sizes.cores },
    ghost befores: { length noted.before.items ≡ sizes.cores },
    // no fact of `OpenRecord` itself: the definitions make records of any numbers
    ghost fits: { (i : ℕ) → open_fits (slice_index_or noted.«open».items i None) ≡ true },
}
