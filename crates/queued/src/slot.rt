// A written line that waits in the queue.
#[derive(Clone, Copy, Default)]
pub struct Slot {
    pub line: u16,
    pub content: [u8; 64],
}
