// The log manager over any memory: the block, the open records, the closing of a record.
#![tactic(auto)]

pub use fault::{LogFault, Place};
pub use state::Log;

mod append;
mod calls;
mod close;
mod fault;
mod lift;
mod noted;
mod start;
mod state;
mod steps;
