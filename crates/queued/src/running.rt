// What a queued memory has above its bytes while power is on.
use crate::queue::Queue;

#[derive(Drop)]
pub struct Running {
    pub(crate) left: u32,
    pub(crate) queue: Queue,
}
