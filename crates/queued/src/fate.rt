// What a cut makes of a queued line.
ghost use Rattle.std.specs.Prelude.{◌≡◌, ◌<◌};
ghost use Rattle.queued.specs.Fates.{fate_at, survivor};

use lines::torn_line;

#[derive(Clone, Copy)]
pub enum Fate {
    Old,
    New,
    Torn,
    Other,
}

impl Fate {
    // The fate of entry i, the oldest being 0: bits 2 i and 2 i + 1 of the choice.
    pub(crate) fn at(choice: u32, i: usize) -> Fate
        requires { i < 16 }
        ensures { result ≡ fate_at choice i }
    {
        // every two bits are a fate, so there is nothing for `TryFrom` to refuse
        match (choice >> (2 * i)) % 4 {
            0 => Fate::Old,
            1 => Fate::New,
            2 => Fate::Torn,
            _ => Fate::Other,
        }
    }

    // What stands in the line after the cut.
    pub(crate) fn survivor(self, old: &[u8; 64], new: &[u8; 64]) -> [u8; 64]
        ensures { result ≡ survivor self old.now new.now }
    {
        match self {
            Fate::Old => *old,
            Fate::New => *new,
            Fate::Torn => torn_line(old, new),
            Fate::Other => [165; 64],
        }
    }
}
