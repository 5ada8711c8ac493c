// Recovery in two halves: the check of every closed record, and then undoing, newest first.
#![tactic(auto)]

pub use checks::check;
pub use undo::recover;

mod checks;
mod undo;
mod walk;
