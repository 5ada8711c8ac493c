// How far the story came in a memory, and what follows for a line: what was asked of it, and whether it was durable.
ghost use Rattle.std.specs.Prelude.{◌≡◌};
ghost use Rattle.outage.specs.History.{is_write_of, asked_next, asked_by, durability_next, durability_by, lost_by, asked_in, durability_in};

use crate::story::{Kind, Step};
use memory::MemoryFault;

#[derive(Clone, Copy)]
pub enum Asked {
    Nothing,
    New,
}

#[derive(Clone, Copy)]
pub enum Durability {
    Durable,
    NotDurable,
}

// The step that did not complete, and what the memory answered.
#[derive(Clone, Copy)]
pub struct Loss {
    pub step: Step,
    pub fault: MemoryFault,
}

#[derive(Clone, Copy)]
pub struct History<'a> {
    pub completed: &'a [Step],
    pub loss: Option<Loss>,
}

impl Step {
    fn writes(self, line: u16) -> bool
        ensures { result ≡ is_write_of self line }
    {
        match self {
            Step::Write { line: written } => written == line,
            Step::Fence => false,
        }
    }
}

impl Asked {
    // What was asked of a line once one more step was.
    fn and(self, step: Step, line: u16) -> Asked
        ensures { result ≡ asked_next line self step }
    {
        if step.writes(line) { Asked::New } else { self }
    }
}

impl Durability {
    // Whether a line is durable once one more step completed.
    fn after(self, step: Step, line: u16, kind: Kind) -> Durability
        ensures { result ≡ durability_next kind line self step }
    {
        match (step, kind) {
            (Step::Fence, _) => Durability::Durable,
            (Step::Write { line: written }, _) if written != line => self,
            (Step::Write { .. }, Kind::Straight) => Durability::Durable,
            (Step::Write { .. }, Kind::Queued { .. }) => Durability::NotDurable,
        }
    }
}

// What steps ask of a line.
fn asked_by(steps: &[Step], line: u16) -> Asked
    ensures { result ≡ asked_by steps.now line }
{
    steps
        .iter()
        .fold(Asked::Nothing, |asked, step| asked.and(*step, line))
}

// Whether a line is durable after steps that completed. Before them every line is.
fn durability_by(steps: &[Step], line: u16, kind: Kind) -> Durability
    ensures { result ≡ durability_by kind steps.now line }
{
    steps.iter().fold(Durability::Durable, |durability, step| {
        durability.after(*step, line, kind)
    })
}

impl History<'_> {
    // Whether power went while a line was written.
    fn lost_at(&self, line: u16) -> bool
        ensures { result ≡ lost_by self.now.loss line }
    {
        self.loss.is_some_and(|loss| loss.step.writes(line))
    }

    pub(crate) fn asked(&self, line: u16) -> Asked
        ensures { result ≡ asked_in self.now line }
    {
        if self.lost_at(line) {
            return Asked::New;
        }
        asked_by(self.completed, line)
    }

    pub(crate) fn durability(&self, line: u16, kind: Kind) -> Durability
        ensures { result ≡ durability_in self.now line kind }
    {
        if self.lost_at(line) {
            return Durability::NotDurable;
        }
        durability_by(self.completed, line, kind)
    }
}
