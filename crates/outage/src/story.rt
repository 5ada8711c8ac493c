// The story: what is asked of each memory, which memories there are, and where power goes.
ghost use Rattle.std.specs.Prelude.{◌≡◌};
ghost use Rattle.outage.specs.Story.{operations_in, choice_bits};

// How many lines each memory has.
pub const LINES: usize = 6;

// It is no memory::Operation: it is told in other words, and the definitions fold over it.
#[derive(Clone, Copy)]
pub enum Step {
    Write { line: u16 },
    Fence,
}

// What is asked, in order. Line 5 is left alone.
pub static STEPS: [Step; 7] = [
    Step::Write { line: 0 },
    Step::Fence,
    Step::Write { line: 1 },
    Step::Write { line: 2 },
    Step::Write { line: 3 },
    Step::Write { line: 4 },
    Step::Fence,
];

#[derive(Clone, Copy)]
pub enum Part {
    PowerGoesAtWrite,
    PowerGoesAtFence,
}

pub const PARTS: [Part; 2] = [Part::PowerGoesAtWrite, Part::PowerGoesAtFence];

impl Part {
    // How many operations complete before power goes.
    pub(crate) fn operations(self) -> u32
        ensures { result ≡ operations_in self }
    {
        match self {
            Part::PowerGoesAtWrite => 5,
            Part::PowerGoesAtFence => 6,
        }
    }
}

// What a cut leaves of the queued lines.
#[derive(Clone, Copy)]
pub enum Choice {
    AllOld,
    AllNew,
    InTurn,
    AllOther,
}

impl Choice {
    // Two bits for each queued line, those of the oldest lowest: 0 old, 1 new, 2 torn, 3 other.
    pub(crate) fn bits(self) -> u32
        ensures { result ≡ choice_bits self }
    {
        match self {
            Choice::AllOld => 0,
            Choice::AllNew => 0x5555_5555,
            Choice::InTurn => 0b11_10_01_00,
            Choice::AllOther => 0xffff_ffff,
        }
    }
}

#[derive(Clone, Copy)]
pub enum Kind {
    Straight,
    Queued { choice: Choice },
}

pub const KINDS: [Kind; 5] = [
    Kind::Straight,
    Kind::Queued {
        choice: Choice::AllOld,
    },
    Kind::Queued {
        choice: Choice::AllNew,
    },
    Kind::Queued {
        choice: Choice::InTurn,
    },
    Kind::Queued {
        choice: Choice::AllOther,
    },
];
