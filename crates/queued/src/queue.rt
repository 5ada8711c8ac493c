// The queue of written lines: up to sixteen, the oldest first, and no line twice.
ghost use Rattle.std.specs.Prelude.{◌≡◌, ◌-◌, ◌≤◌, true, [], ◌∷◌, ◌++◌, map, length, take, drop, position, ◌==◌, if◌then◌else◌};
ghost use Rattle.std.specs.Option.{option_to_list};
ghost use Rattle.queued.specs.Slots.{Whole, distinct, is_queued, newest, renewed};

use crate::slot::Slot;
use arrayvec::ArrayVec;

#[derive(Drop)]
pub struct Queue {
    slots: ArrayVec<Slot, 16>,
    ghost few: { length slots.items ≤ 16 },
    ghost whole: { Whole slots.items },
    ghost once: { distinct slots.items ≡ true },
}

impl Queue {
    ghost use Rattle.queued.specs.Queue.{entries_in};

    pub(crate) fn new() -> Queue
        ensures { entries_in result ≡ [] }
    {
        Queue {
            slots: ArrayVec::new(),
        }
    }

    // The entries, the oldest first.
    pub(crate) fn entries(&self) -> &[Slot]
        ensures { result.now ≡ entries_in self.now }
    {
        self.slots.as_slice()
    }

    // What the queue holds for a line.
    pub(crate) fn content(&self, line: u16) -> Option<[u8; 64]>
        ensures { result ≡ newest (entries_in self.now) line }
    {
        let waiting = self
            .entries()
            .iter()
            .rev()
            .find(|waiting| waiting.line == line)?;
        Some(waiting.content)
    }

    // Where a line stands in the queue.
    fn place(&self, line: u16) -> Option<usize>
        ensures { result ≡ position (λ e. e.line == line) (entries_in self.now) }
    {
        self.entries()
            .iter()
            .position(|waiting| waiting.line == line)
    }

    // Takes the oldest entry out if sixteen are queued.
    fn make_room(&mut self) -> Option<Slot>
        ensures oldest { option_to_list result ≡ take (length (entries_in self.old) - 15) (entries_in self.old) }
        ensures others { entries_in self.new ≡ drop (length (entries_in self.old) - 15) (entries_in self.old) }
    {
        if self.slots.is_full() {
            Some(self.slots.remove(0))
        } else {
            None
        }
    }

    // Takes a write. A queued line is renewed in place; any other enters behind all others, and the oldest entry comes
    // out if sixteen were queued.
    pub(crate) fn take(&mut self, write: Slot) -> Option<Slot>
        ensures out { option_to_list result ≡ (if is_queued (entries_in self.old) write.line then [] else take (length (entries_in self.old) - 15) (entries_in self.old)) }
        ensures after { entries_in self.new ≡ (if is_queued (entries_in self.old) write.line then map (renewed write.line write.content) (entries_in self.old) else drop (length (entries_in self.old) - 15) (entries_in self.old) ++ (write ∷ [])) }
    {
        if let Some(place) = self.place(write.line) {
            self.slots.as_mut_slice()[place] = write;
            return None;
        }
        let oldest = self.make_room();
        self.slots.push(write);
        oldest
    }
}
