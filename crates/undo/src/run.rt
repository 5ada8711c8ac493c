// Runs the story with power for so many operations of the closing, and then recovers.
use crate::story::{OPERATIONS, SIZES, prepare, settle};
use memory::Memory;
use queued::Queued;
use recovery::{check, recover};
use std::fmt;
use straight::Straight;
use survival::{begin, close_and_cut, power_up};
use undo_log::{Log, LogFault};

#[derive(Clone, Copy)]
pub(crate) enum Kind {
    Straight,
    // every waiting line is lost at a cut: each byte becomes 165
    Queued,
}

#[derive(Clone, Copy)]
pub(crate) struct Outcome {
    pub closing: Result<(), LogFault>,
    // closed records of each core
    pub closed: [u32; 2],
    // records and entries
    pub found: (u32, u32),
    pub undone: (u32, u32),
    // byte 0 of lines 3, 5 and 6
    pub before: [u8; 3],
    pub after: [u8; 3],
}

impl fmt::Display for Kind {
    fn fmt<W: fmt::Write>(&self, f: &mut fmt::Formatter<W>) -> fmt::Result {
        f.pad(match *self {
            Kind::Straight => "straight",
            Kind::Queued => "queued",
        })
    }
}

// Byte 0 of lines 3, 5 and 6.
fn first_bytes<M: Memory>(log: &Log<M>) -> Result<[u8; 3], LogFault> {
    let mut bytes = [0; 3];
    for (byte, line) in bytes.iter_mut().zip([3, 5, 6]) {
        *byte = log.memory().read(line)?[0];
    }
    Ok(bytes)
}

fn run<M: Memory>(log: &mut Log<M>, left: u32) -> Result<Outcome, LogFault> {
    begin(log, SIZES)?;
    settle(log)?;
    power_up(log, OPERATIONS.saturating_add(left));
    prepare(log)?;
    let closing = close_and_cut(log, 0);
    let closed = [log.entry(0).records(&SIZES), log.entry(1).records(&SIZES)];
    power_up(log, 100);
    let found = check(log)?;
    let before = first_bytes(log)?;
    let undone = recover(log)?;
    let after = first_bytes(log)?;
    Ok(Outcome {
        closing,
        closed,
        found,
        undone,
        before,
        after,
    })
}

pub(crate) fn run_on(kind: Kind, left: u32) -> Result<Outcome, LogFault> {
    let mut bytes = [0; 2560];
    // each arm makes a memory of a type of its own
    match kind {
        Kind::Straight => run(&mut Log::new(Straight::new(&mut bytes)), left),
        Kind::Queued => run(&mut Log::new(Queued::new(&mut bytes, u32::MAX)), left),
    }
}
