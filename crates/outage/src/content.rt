// What a line holds: its old content, its new content, and a name for what stands in it.
ghost use Rattle.std.specs.Prelude.{◌≡◌};
ghost use Rattle.outage.specs.Content.{old_content, new_content, called};

use lines::torn_line;

// It is no Fate of queued: that is private to a memory, and a reader of lines knows no choice.
#[derive(Clone, Copy)]
pub enum Stands {
    Old,
    New,
    Torn,
    Other,
}

// What a line holds before the story begins.
pub(crate) fn old_content(line: u16) -> [u8; 64]
    ensures { result ≡ old_content line }
{
    [(line % 100) as u8; 64]
}

// What a write of the story puts into a line.
pub(crate) fn new_content(line: u16) -> [u8; 64]
    ensures { result ≡ new_content line }
{
    [(100 + line % 100) as u8; 64]
}

// What the content found in a line is called.
pub(crate) fn stands_as(line: u16, found: &[u8; 64]) -> Stands
    ensures { result ≡ called line found.now }
{
    let old = old_content(line);
    let new = new_content(line);
    if *found == old {
        Stands::Old
    } else if *found == new {
        Stands::New
    } else if *found == torn_line(&old, &new) {
        Stands::Torn
    } else {
        Stands::Other
    }
}
