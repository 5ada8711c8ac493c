// The power supply of a memory.
ghost use Rattle.std.specs.Prelude.{◌≡◌};
ghost use Rattle.memory.specs.Power.{off, on, is_on, left_in, suffices, spent};

// How many operations are left, if power is on.
#[derive(Clone, Copy, PartialEq, Eq, Debug)]
pub struct Power {
    left: Option<u32>,
}

impl Power {
    pub const fn off() -> Power
        ensures { result ≡ off }
    {
        Power { left: None }
    }

    pub const fn on(left: u32) -> Power
        ensures { result ≡ on left }
    {
        Power { left: Some(left) }
    }

    pub fn is_on(self) -> bool
        ensures { result ≡ is_on self }
    {
        self.left.is_some()
    }

    pub fn operations_left(self) -> u32
        ensures { result ≡ left_in self }
    {
        self.left.unwrap_or(0)
    }

    // Spends one operation. With none left power goes, and the operation does not complete.
    // It answers a bool: the caller alone knows which operation it was, and makes the fault.
    pub fn spend(&mut self) -> bool
        ensures completes { result ≡ suffices self.old }
        ensures after { self.new ≡ spent self.old }
    {
        self.left = self.left.and_then(|left| left.checked_sub(1));
        self.is_on()
    }
}
