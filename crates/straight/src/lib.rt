// Straight memory: every completed write goes straight into the lent bytes, so every line is always durable.
#![tactic(auto)]

ghost use Rattle.std.specs.Prelude.{◌≡◌, ok_or, if◌then◌else◌};
ghost use Rattle.lines.specs.Lines.{line_at, StaysLent};
ghost use Rattle.memory.specs.declared.fault.MemoryFault.TheVariants.{NoSuchLine, NoPower};
ghost use Rattle.memory.specs.Meaning.{Writes, Fences, Cuts, powered_up};
ghost use Rattle.memory.specs.Power.{off, on, suffices, spent};
ghost use Rattle.straight.specs.Straight.{bytes_in, meant, written, power_after_write};
ghost use Rattle.straight.specs.Sound.{always_sound};

use lines::{line_count, read_line, torn_line, write_line};
use memory::{Memory, MemoryFault, Operation, Power};

#[derive(Drop)]
pub struct Straight<'a> {
    bytes: &'a mut [u8],
    power: Power,
}

impl<'a> Straight<'a> {
    // A memory on all whole lines of the bytes, with power off. A rest below 64 bytes is never touched.
    pub fn new(bytes: &'a mut [u8]) -> Straight<'a>
        ensures bytes { bytes_in result ≡ bytes.old }
        ensures dark { result.power ≡ off }
        ensures lender { result.bytes.ghost_name ≡ bytes.entry.ghost_name }
    {
        Straight {
            bytes,
            power: Power::off(),
        }
    }

    // What stands in a line, with power on or off.
    fn content(&self, line: u16) -> Result<[u8; 64], MemoryFault>
        ensures { result ≡ ok_or (line_at (bytes_in self.now) line) (NoSuchLine line) }
    {
        read_line(self.bytes, line).ok_or(MemoryFault::NoSuchLine { line })
    }

    // Spends one operation, if power suffices for it.
    fn spend(&mut self, operation: Operation) -> Result<(), MemoryFault>
        ensures answer { result ≡ (if suffices self.old.power then Ok tt else Err (NoPower operation)) }
        ensures after { self.new ≡ record self.old { power = spent self.old.power } }
    {
        if self.power.spend() {
            Ok(())
        } else {
            Err(MemoryFault::NoPower { operation })
        }
    }
}

impl<'a> Memory for Straight<'a> {
    ghost meaning = { meant };

    ghost sound = { always_sound };

    fn line_count(&self) -> usize {
        line_count(self.bytes)
    }

    fn is_on(&self) -> bool {
        self.power.is_on()
    }

    fn operations_left(&self) -> u32 {
        self.power.operations_left()
    }

    fn read(&self, line: u16) -> Result<[u8; 64], MemoryFault> {
        let content = self.content(line)?;
        if !self.power.is_on() {
            return Err(MemoryFault::Unreadable { line });
        }
        Ok(content)
    }

    fn write(&mut self, line: u16, content: &[u8; 64]) -> Result<(), MemoryFault>
        ensures did { Writes (meant self.old) line content.now result (meant self.new) }
        ensures bytes { bytes_in self.new ≡ written self.old.power (bytes_in self.old) line content.now }
        ensures power { self.new.power ≡ power_after_write self.old.power (bytes_in self.old) line }
        // it speaks of two states, so no type can hold it
        ensures lent { StaysLent self.old.bytes self.new.bytes }
    {
        let old = self.content(line)?;
        let was_on = self.power.is_on();
        let spent = self.spend(Operation::Write { line });
        if spent.is_ok() {
            write_line(self.bytes, line, content);
        } else if was_on {
            write_line(self.bytes, line, &torn_line(&old, content));
        }
        spent
    }

    fn fence(&mut self) -> Result<(), MemoryFault>
        ensures did { Fences (meant self.old) result (meant self.new) }
        ensures bytes { bytes_in self.new ≡ bytes_in self.old }
        ensures power { self.new.power ≡ spent self.old.power }
        ensures lent { StaysLent self.old.bytes self.new.bytes }
    {
        self.spend(Operation::Fence)
    }

    fn cut(&mut self)
        ensures did { Cuts (meant self.old) (meant self.new) }
        ensures bytes { bytes_in self.new ≡ bytes_in self.old }
        ensures power { self.new.power ≡ off }
        ensures lent { StaysLent self.old.bytes self.new.bytes }
    {
        self.power = Power::off();
    }

    fn power_up(&mut self, operations: u32)
        ensures did { meant self.new ≡ powered_up (meant self.old) operations }
        ensures bytes { bytes_in self.new ≡ bytes_in self.old }
        ensures power { self.new.power ≡ on operations }
        ensures lent { StaysLent self.old.bytes self.new.bytes }
    {
        self.power = Power::on(operations);
    }
}
