// What the log manager notes of each core, and loses with the power.
ghost use Rattle.std.specs.Prelude.{◌≡◌, ◌≤◌, None, replicate};

use arrayvec::ArrayVec;
use layout::{NO_BUCKET, OpenRecord};

// The open records lie in a table of their own, since the search for a free bucket is lent them as a list.
#[derive(Drop)]
pub struct Noted {
    pub(crate) open: ArrayVec<Option<OpenRecord>, 32>,
    // the bucket before a core's current one, `NO_BUCKET` if there is none: byte 58 of the current one's headers
    pub(crate) before: ArrayVec<u8, 32>,
}

// A table with the same in the place of each core.
fn alike<T: Copy + Default>(cores: u8, value: T) -> ArrayVec<T, 32>
    requires { cores ≤ 32 }
    ensures { result.items ≡ replicate cores value }
{
    let mut table = ArrayVec::from([value; 32]);
    table.truncate(usize::from(cores));
    table
}

impl Noted {
    // No record open, and no bucket before.
    pub(crate) fn blank(cores: u8) -> Noted
        requires { cores ≤ 32 }
        ensures open { result.«open».items ≡ replicate cores None }
        ensures before { result.before.items ≡ replicate cores 255 }
    {
        Noted {
            open: alike(cores, None),
            before: alike(cores, NO_BUCKET),
        }
    }
}
