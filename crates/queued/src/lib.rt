// Queued memory: up to sixteen written lines wait in a queue, in order of entry, and a choice made beforehand says what
// a cut leaves of each.
#![tactic(auto)]

ghost use Rattle.std.specs.Prelude.{◌≡◌, ◌≤◌, true, [], length, ok_or, if◌then◌else◌};
ghost use Rattle.lines.specs.Lines.{line_at, StaysLent};
ghost use Rattle.memory.specs.declared.fault.MemoryFault.TheVariants.{NoSuchLine, NoPower};
ghost use Rattle.memory.specs.Meaning.{Writes, Fences, Cuts, powered_up};
ghost use Rattle.memory.specs.Power.{off, is_on, suffices};
ghost use Rattle.queued.specs.Slots.{distinct};
ghost use Rattle.queued.specs.Queue.{entries_in};
ghost use Rattle.queued.specs.Queued.{parts_of, meant, operated, entered, drained, after_write, after_fence, after_cut, after_power_up};
ghost use Rattle.queued.specs.Sound.{always_sound};

use below::{cut_down, move_down};
use lines::{line_count, read_line, write_line};
use memory::{Memory, MemoryFault, Operation};
use queue::Queue;
use running::Running;
use slot::Slot;

mod below;
mod fate;
mod queue;
mod running;
mod slot;

#[derive(Drop)]
pub struct Queued<'a> {
    bytes: &'a mut [u8],
    choice: u32,
    running: Option<Running>,
}

impl<'a> Queued<'a> {
    // A memory on all whole lines of the bytes, with power off and nothing queued. A rest below 64 bytes is never touched.
    pub fn new(bytes: &'a mut [u8], choice: u32) -> Queued<'a>
        ensures parts { parts_of result ≡ record { bytes = bytes.old; choice = choice; queue = []; power = off } }
        ensures lender { result.bytes.ghost_name ≡ bytes.entry.ghost_name }
    {
        Queued {
            bytes,
            choice,
            running: None,
        }
    }

    // What stands below in a line.
    fn below(&self, line: u16) -> Result<[u8; 64], MemoryFault>
        ensures { result ≡ ok_or (line_at (parts_of self.now).bytes line) (NoSuchLine line) }
    {
        read_line(self.bytes, line).ok_or(MemoryFault::NoSuchLine { line })
    }

    // Spends one operation; with none left power goes.
    fn spend(&mut self, operation: Operation) -> Result<(), MemoryFault>
        ensures answer { result ≡ (if suffices (parts_of self.old).power then Ok tt else Err (NoPower operation)) }
        ensures parts { parts_of self.new ≡ operated (λ s. s) (parts_of self.old) }
        // it speaks of two states, so no type can hold it
        ensures lent { StaysLent self.old.bytes self.new.bytes }
    {
        match &mut self.running {
            Some(running) if running.left > 0 => {
                running.left -= 1;
                Ok(())
            }
            _ => {
                self.cut();
                Err(MemoryFault::NoPower { operation })
            }
        }
    }

    // The queue takes a write, and what comes out moves down.
    fn take_write(&mut self, line: u16, content: &[u8; 64])
        requires { is_on (parts_of self.old).power ≡ true }
        ensures parts { parts_of self.new ≡ entered line content.now (parts_of self.old) }
        ensures lent { StaysLent self.old.bytes self.new.bytes }
    {
        if let Some(running) = &mut self.running {
            let write = Slot {
                line,
                content: *content,
            };
            if let Some(oldest) = running.queue.take(write) {
                write_line(self.bytes, oldest.line, &oldest.content);
            }
        }
    }

    // All queued lines move down.
    fn drain(&mut self)
        ensures parts { parts_of self.new ≡ drained (parts_of self.old) }
        ensures lent { StaysLent self.old.bytes self.new.bytes }
    {
        if let Some(running) = &mut self.running {
            move_down(self.bytes, running.queue.entries());
            running.queue = Queue::new();
        }
    }
}

impl<'a> Memory for Queued<'a> {
    ghost meaning = { meant };

    ghost sound = { always_sound };

    fn line_count(&self) -> usize {
        line_count(self.bytes)
    }

    fn is_on(&self) -> bool {
        self.running.is_some()
    }

    fn operations_left(&self) -> u32 {
        self.running.as_ref().map_or(0, |running| running.left)
    }

    fn read(&self, line: u16) -> Result<[u8; 64], MemoryFault> {
        let below = self.below(line)?;
        let running = self
            .running
            .as_ref()
            .ok_or(MemoryFault::Unreadable { line })?;
        Ok(running.queue.content(line).unwrap_or(below))
    }

    fn write(&mut self, line: u16, content: &[u8; 64]) -> Result<(), MemoryFault>
        ensures did { Writes (meant self.old) line content.now result (meant self.new) }
        ensures parts { parts_of self.new ≡ after_write line content.now (parts_of self.old) }
        ensures queue { (length (parts_of self.new).queue ≤ 16) × (distinct (parts_of self.new).queue ≡ true) }
        ensures lent { StaysLent self.old.bytes self.new.bytes }
    {
        self.below(line)?;
        self.spend(Operation::Write { line })?;
        self.take_write(line, content);
        Ok(())
    }

    fn fence(&mut self) -> Result<(), MemoryFault>
        ensures did { Fences (meant self.old) result (meant self.new) }
        ensures parts { parts_of self.new ≡ after_fence (parts_of self.old) }
        ensures lent { StaysLent self.old.bytes self.new.bytes }
    {
        self.spend(Operation::Fence)?;
        self.drain();
        Ok(())
    }

    fn cut(&mut self)
        ensures did { Cuts (meant self.old) (meant self.new) }
        ensures parts { parts_of self.new ≡ after_cut (parts_of self.old) }
        ensures lent { StaysLent self.old.bytes self.new.bytes }
    {
        let choice = self.choice;
        if let Some(running) = &mut self.running {
            cut_down(self.bytes, running.queue.entries(), choice);
            self.running = None;
        }
    }

    fn power_up(&mut self, operations: u32)
        ensures did { meant self.new ≡ powered_up (meant self.old) operations }
        ensures parts { parts_of self.new ≡ after_power_up operations (parts_of self.old) }
        ensures lent { StaysLent self.old.bytes self.new.bytes }
    {
        match &mut self.running {
            // what is queued stays where it is
            Some(running) => running.left = operations,
            None => {
                self.running = Some(Running {
                    left: operations,
                    queue: Queue::new(),
                });
            }
        }
    }
}
