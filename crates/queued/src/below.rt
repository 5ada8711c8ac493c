// How queued lines reach the bytes below: all of them at a fence, each by its fate at a cut.
ghost use Rattle.std.specs.Prelude.{◌≡◌, ◌≤◌, length};
ghost use Rattle.queued.specs.Below.{moved, cut_down};

use crate::fate::Fate;
use crate::slot::Slot;
use lines::{read_line, write_line};

// Moves entries down, the oldest first.
pub(crate) fn move_down(bytes: &mut [u8], entries: &[Slot])
    ensures { bytes.new ≡ moved bytes.old entries.now }
{
    for waiting in entries {
        write_line(bytes, waiting.line, &waiting.content);
    }
}

// Leaves of each entry what the choice says.
pub(crate) fn cut_down(bytes: &mut [u8], entries: &[Slot], choice: u32)
    requires { length entries.now ≤ 16 }
    ensures { bytes.new ≡ cut_down choice 0 bytes.old entries.now }
{
    for (i, waiting) in entries.iter().enumerate() {
        if let Some(old) = read_line(bytes, waiting.line) {
            let left = Fate::at(choice, i).survivor(&old, &waiting.content);
            write_line(bytes, waiting.line, &left);
        }
    }
}
