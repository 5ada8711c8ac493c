// The block: an entry for each core, which outlives every loss of power.
ghost use Rattle.std.specs.Prelude.{◌≡◌, ◌^◌, ◌≤◌, true, nat_lt};
ghost use Rattle.layout.specs.Block.{empty, has, buckets_in, records_of, entry_sound, all_sound, block_sound, BlockRules};

use crate::Sizes;

// Stands where there is no bucket to name: the number is the rules', in the block and in a header.
pub const NO_BUCKET: u8 = 255;

#[derive(Clone, Copy, PartialEq, Eq, Debug)]
pub struct BlockEntry {
    // bit b for bucket b
    pub vector: u32,
    // the bucket of the newest closed record, `NO_BUCKET` for none: a number by the rules, so no `Option`
    pub current: u8,
    // records closed in the current bucket
    pub closed: u8,
}

impl BlockEntry {
    // The entry of a core without closed records: 0, 255, 0 by the rules, so `Default` is not derived.
    pub fn empty() -> BlockEntry
        ensures { result ≡ empty }
    {
        BlockEntry {
            vector: 0,
            current: NO_BUCKET,
            closed: 0,
        }
    }

    // How many buckets the vector has.
    pub fn buckets(&self) -> u32
        ensures { result ≡ buckets_in 32 self.now.vector }
    {
        self.vector.count_ones()
    }

    // How many closed records the entry stands for.
    pub fn records(&self, sizes: &Sizes) -> u32
        ensures { (result ≡ records_of sizes.now self.now) × (result ≤ 8160) }
    {
        u32::from(self.closed) + self.buckets().saturating_sub(1) * u32::from(sizes.records)
    }

    // The vector has a bucket.
    pub fn has_bucket(&self, bucket: u8) -> bool
        ensures { result ≡ has self.now.vector bucket }
    {
        let vector = self.vector;
        bucket < 32 && (vector >> bucket) % 2 == 1
    }

    // The vector has buckets below a number only.
    fn is_below(&self, buckets: u8) -> bool
        ensures { result ≡ nat_lt self.now.vector (2 ^ buckets) }
    {
        let vector = self.vector;
        buckets >= 32 || vector >> buckets == 0
    }

    fn is_sound(&self, sizes: &Sizes) -> bool
        ensures { result ≡ entry_sound sizes.now self.now }
    {
        *self == BlockEntry::empty()
            || (self.is_below(sizes.buckets)
                && self.has_bucket(self.current)
                && (1..=sizes.records).contains(&self.closed))
    }
}

impl Default for BlockEntry {
    ghost is_default = { λ e. e ≡ empty };

    fn default() -> BlockEntry {
        BlockEntry::empty()
    }
}

// The entries are a block: one for each core, each empty or sound, and no bucket in two of them.
pub fn is_block(sizes: &Sizes, entries: &[BlockEntry]) -> bool
    ensures test { result ≡ block_sound sizes.now entries.now }
    ensures rules { result ≡ true → BlockRules sizes.now entries.now }
{
    entries.len() == usize::from(sizes.cores) && all_sound(sizes, entries)
}

fn all_sound(sizes: &Sizes, entries: &[BlockEntry]) -> bool
    ensures { result ≡ all_sound sizes.now 0 entries.now }
{
    let mut taken = 0;
    for held in entries {
        if !held.is_sound(sizes) || taken & held.vector != 0 {
            return false;
        }
        taken |= held.vector;
    }
    true
}
