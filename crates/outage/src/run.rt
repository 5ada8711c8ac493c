// Runs the story in a memory, and reads what stands after the outage.
ghost use Rattle.std.specs.Prelude.{◌≡◌, ◌≤◌, true, length, is_ok, IfOk, OnOk};
ghost use Rattle.outage.specs.History.{Tells};
ghost use Rattle.outage.specs.Run.{Settled, Stepped, Kept, Found, Honest, AsAsked};

use crate::content::{Stands, new_content, old_content, stands_as};
use crate::history::{History, Loss};
use crate::story::{Kind, LINES, Part, STEPS, Step};
use memory::{Memory, MemoryFault};
use queued::Queued;
use straight::Straight;

// What was asked of a memory until power went, and what stands in each line since.
#[derive(Clone, Copy)]
pub struct Account {
    pub history: History<'static>,
    pub stands: [Stands; LINES],
}

// A memory that has a line for each of the story's.
#[derive(Drop)]
struct Stage<M: Memory> {
    memory: M,
    ghost lines: { 6 ≤ length (M.Memory.meaning memory).lines },
}

impl<M: Memory> Stage<M> {
    // Gives every line its old content, durable.
    fn settle(&mut self) -> Result<(), MemoryFault>
        ensures settled { OnOk result (Settled (M.Memory.meaning self.new.memory)) }
        ensures given { is_ok result ≡ true }
    {
        self.memory.power_up(u32::MAX);
        for line in 0..LINES as u16 {
            self.memory.write(line, &old_content(line))?;
        }
        self.memory.fence()?;
        self.memory.cut();
        Ok(())
    }

    fn take_step(&mut self, step: Step) -> Result<(), MemoryFault>
        ensures { Stepped (M.Memory.meaning self.old.memory) step result (M.Memory.meaning self.new.memory) }
    {
        // the steps are data that the definitions speak of and the program prints, so they are no table of closures
        match step {
            Step::Write { line } => self.memory.write(line, &new_content(line)),
            Step::Fence => self.memory.fence(),
        }
    }

    // Takes the steps in order, up to the first that does not complete.
    fn take_steps<'a>(&mut self, steps: &'a [Step]) -> History<'a>
        ensures tells { Tells steps.now result }
        ensures kept { Kept M.Memory.meaning self.old.memory result self.new.memory }
    {
        for (i, step) in steps.iter().enumerate() {
            if let Err(fault) = self.take_step(*step) {
                let loss = Loss { step: *step, fault };
                return History {
                    completed: &steps[0..i],
                    loss: Some(loss),
                };
            }
        }
        History {
            completed: steps,
            loss: None,
        }
    }

    fn read_lines(&self) -> Result<[Stands; LINES], MemoryFault>
        ensures found { IfOk result (Found (M.Memory.meaning self.now.memory)) }
        ensures given { (M.Memory.meaning self.now.memory).on ≡ true → is_ok result ≡ true }
    {
        let mut stands = [Stands::Other; LINES];
        for (line, place) in stands.iter_mut().enumerate() {
            let number = line as u16;
            *place = stands_as(number, &self.memory.read(number)?);
        }
        Ok(stands)
    }

    // Loses power after some operations of the story, and powers up again to read.
    fn lose_power(&mut self, operations: u32) -> Result<Account, MemoryFault>
        ensures tells { IfOk result (λ a. Tells STEPS a.history) }
        ensures asked { IfOk result (λ a. (k : Kind) → Honest M.Memory.meaning k → AsAsked k a) }
        ensures given { is_ok result ≡ true }
    {
        self.settle()?;
        self.memory.power_up(operations);
        let history = self.take_steps(&STEPS);
        self.memory.power_up(0);
        let stands = self.read_lines()?;
        Ok(Account { history, stands })
    }
}

// Each run gives an account: how far the story came, and that a line that is durable stands as asked.
pub(crate) fn account_of(kind: Kind, part: Part) -> Result<Account, MemoryFault>
    ensures tells { IfOk result (λ a. Tells STEPS a.history) }
    ensures asked { IfOk result (AsAsked kind) }
    ensures given { is_ok result ≡ true }
{
    let mut bytes = [0; 64 * LINES];
    let operations = part.operations();
    // each arm makes a memory of a type of its own
    match kind {
        Kind::Straight => {
            let memory = Straight::new(&mut bytes);
            Stage { memory }.lose_power(operations)
        }
        Kind::Queued { choice } => {
            let memory = Queued::new(&mut bytes, choice.bits());
            Stage { memory }.lose_power(operations)
        }
    }
}
