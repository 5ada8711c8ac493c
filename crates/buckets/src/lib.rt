// The search for a free bucket: one that no core's vector has and in which no open record lies.
#![tactic(auto)]

ghost use Rattle.std.specs.Prelude.{◌≡◌};
ghost use Rattle.buckets.specs.Buckets.{claimed, in_use, free, lowest_free, LowestFree};

use layout::{BlockEntry, OpenRecord};

// The lowest free bucket, if there is one.
pub fn lowest_free(block: &[BlockEntry], open: &[Option<OpenRecord>], buckets: u8) -> Option<u8>
    ensures found { result ≡ lowest_free (free block.now «open».now) buckets 0 }
    ensures lowest { LowestFree block.now «open».now buckets result }
{
    (0..buckets).find(|bucket| is_free(block, open, *bucket))
}

fn is_free(block: &[BlockEntry], open: &[Option<OpenRecord>], bucket: u8) -> bool
    ensures { result ≡ free block.now «open».now bucket }
{
    !is_claimed(block, bucket) && !is_in_use(open, bucket)
}

// Some vector of the block has the bucket.
fn is_claimed(block: &[BlockEntry], bucket: u8) -> bool
    ensures { result ≡ claimed bucket block.now }
{
    block.iter().any(|held| held.has_bucket(bucket))
}

// Some open record lies in the bucket.
fn is_in_use(open: &[Option<OpenRecord>], bucket: u8) -> bool
    ensures { result ≡ in_use bucket «open».now }
{
    open.iter().any(|opened| opened.is_some_and(|opened| opened.id.bucket == bucket))
}
