// Outage: writes and fences lines, loses power, and tells what stands.
#![tactic(auto)]

use run::account_of;
use std::io;
use story::{KINDS, PARTS};
use telling::{tell_opening, tell_outcome, tell_part};

mod content;
mod history;
mod run;
mod story;
mod telling;
mod words;

fn main(rt: HostRuntime) -> io::Result<()> {
    tell_opening(&rt)?;
    for part in PARTS {
        tell_part(&rt, part)?;
        for kind in KINDS {
            tell_outcome(&rt, kind, account_of(kind, part))?;
        }
    }
    Ok(())
}
