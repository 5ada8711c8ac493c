// The words in which the story is told.
ghost use Rattle.std.specs.Prelude.{◌≡◌, Some};
ghost use Rattle.outage.specs.Words.{step_text, part_text, choice_text, kind_name, kind_text, asked_text, durability_text, stands_text};

use crate::content::Stands;
use crate::history::{Asked, Durability};
use crate::story::{Choice, Kind, Part, Step};
use std::fmt;

impl fmt::Display for Step {
    ghost output = { λ step. Some (step_text step) };

    fn fmt<W: fmt::Write>(&self, f: &mut fmt::Formatter<W>) -> fmt::Result {
        match *self {
            Step::Write { line } => write!(f, "write line {line}"),
            Step::Fence => write!(f, "fence"),
        }
    }
}

impl Part {
    fn name(self) -> &'static str
        ensures { result.now ≡ part_text self }
    {
        match self {
            Part::PowerGoesAtWrite => "Part 1: power goes at a write",
            Part::PowerGoesAtFence => "Part 2: power goes at a fence",
        }
    }
}

impl fmt::Display for Part {
    ghost output = { λ part. Some (part_text part) };

    fn fmt<W: fmt::Write>(&self, f: &mut fmt::Formatter<W>) -> fmt::Result {
        f.pad(self.name())
    }
}

impl Choice {
    fn name(self) -> &'static str
        ensures { result.now ≡ choice_text self }
    {
        match self {
            Choice::AllOld => "all old",
            Choice::AllNew => "all new",
            Choice::InTurn => "old, new, torn, other",
            Choice::AllOther => "all other",
        }
    }
}

impl Kind {
    fn name(self) -> &'static str
        ensures { result.now ≡ kind_name self }
    {
        match self {
            Kind::Straight => "straight memory",
            Kind::Queued { .. } => "queued memory",
        }
    }
}

impl fmt::Display for Kind {
    ghost output = { λ kind. Some (kind_text kind) };

    fn fmt<W: fmt::Write>(&self, f: &mut fmt::Formatter<W>) -> fmt::Result {
        let name = self.name();
        match *self {
            Kind::Straight => write!(f, "{name}"),
            Kind::Queued { choice } => {
                let bits = choice.bits();
                let leaves = choice.name();
                write!(f, "{name}, choice {bits} ({leaves})")
            }
        }
    }
}

impl fmt::Display for Asked {
    ghost output = { λ asked. Some (asked_text asked) };

    fn fmt<W: fmt::Write>(&self, f: &mut fmt::Formatter<W>) -> fmt::Result {
        f.pad(match *self {
            Asked::Nothing => "nothing",
            Asked::New => "new",
        })
    }
}

impl fmt::Display for Durability {
    ghost output = { λ durability. Some (durability_text durability) };

    fn fmt<W: fmt::Write>(&self, f: &mut fmt::Formatter<W>) -> fmt::Result {
        f.pad(match *self {
            Durability::Durable => "durable",
            Durability::NotDurable => "not durable",
        })
    }
}

impl fmt::Display for Stands {
    ghost output = { λ stands. Some (stands_text stands) };

    fn fmt<W: fmt::Write>(&self, f: &mut fmt::Formatter<W>) -> fmt::Result {
        f.pad(match *self {
            Stands::Old => "old",
            Stands::New => "new",
            Stands::Torn => "torn",
            Stands::Other => "other",
        })
    }
}
