// A memory of 64-byte lines whose power can go, by its meaning: what each kind of memory has to show, and all that a
// user may rest on.
#![tactic(auto)]

ghost use Rattle.std.specs.Prelude.{◌≡◌, length};
ghost use Rattle.memory.specs.Meaning.{Meaning, Sound, Reads, Writes, Fences, Cuts, powered_up};

pub use fault::{MemoryFault, Operation};
pub use laws::{read_after_cut, read_twice, write_fence_and_cut};
pub use power::Power;

mod fault;
mod laws;
mod lent;
mod power;

pub trait Memory {
    // the content of each line, which lines are durable, whether power is on, and the operations left
    ghost meaning: { Self → Meaning };

    // How many lines there are: it never changes.
    fn line_count(&self) -> usize
        ensures { result ≡ length (meaning self.now).lines };

    fn is_on(&self) -> bool
        ensures { result ≡ (meaning self.now).on };

    // How many more writes and fences complete before power goes.
    fn operations_left(&self) -> u32
        ensures { result ≡ (meaning self.now).left };

    fn read(&self, line: u16) -> Result<[u8; 64], MemoryFault>
        ensures { Reads (meaning self.now) line result };

    fn write(&mut self, line: u16, content: &[u8; 64]) -> Result<(), MemoryFault>
        ensures did { Writes (meaning self.old) line content.now result (meaning self.new) };

    fn fence(&mut self) -> Result<(), MemoryFault>
        ensures did { Fences (meaning self.old) result (meaning self.new) };

    // Power goes now.
    fn cut(&mut self)
        ensures did { Cuts (meaning self.old) (meaning self.new) };

    fn power_up(&mut self, operations: u32)
        ensures did { meaning self.new ≡ powered_up (meaning self.old) operations };

    // what holds of it at every moment
    ghost sound: { (m : Self) → Sound (meaning m) };
}
