// The sizes of a log and of the machine around it.
ghost use Rattle.std.specs.Prelude.{◌≡◌};
ghost use Rattle.layout.specs.Sizes.{in_range, lines_needed, sizes_fit};

#[derive(Clone, Copy, PartialEq, Eq, Debug, Default)]
pub struct Sizes {
    pub data_lines: u16,
    pub buckets: u8,
    // in each bucket
    pub records: u8,
    pub cores: u8,
    pub cache_lines: u8,
}

impl Sizes {
    // Each size is in its range.
    pub fn in_range(&self) -> bool
        ensures { result ≡ in_range self.now }
    {
        (1..=512).contains(&self.data_lines)
            && (1..=32).contains(&self.buckets)
            && (1..=4).contains(&self.records)
            && (1..=32).contains(&self.cores)
            && (1..=64).contains(&self.cache_lines)
    }

    // How many lines a memory of these sizes has: the data lines, and eight for each record.
    pub fn lines_needed(&self) -> usize
        ensures { result ≡ lines_needed self.now }
    {
        usize::from(self.data_lines) + 8 * (usize::from(self.buckets) * usize::from(self.records))
    }

    // Each size is in its range, and a memory of so many lines has just those needed.
    pub fn fit(&self, lines: usize) -> bool
        ensures { result ≡ sizes_fit self.now lines }
    {
        self.in_range() && lines == self.lines_needed()
    }
}
