// Undo: two cores log and change lines, power goes at each operation of a closing in turn, and recovery undoes.
#![tactic(auto)]

use run::{Kind, run_on};
use std::io;
use telling::{tell_opening, tell_run};

mod run;
mod story;
mod telling;

fn main(rt: HostRuntime) -> io::Result<()> {
    tell_opening(&rt)?;
    for left in 0..3 {
        for kind in [Kind::Straight, Kind::Queued] {
            tell_run(&rt, kind, left, run_on(kind, left))?;
        }
    }
    Ok(())
}
