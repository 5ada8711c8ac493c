// Prints what was found and undone.
use crate::run::{Kind, Outcome};
use memory::MemoryFault;
use std::io;
use undo_log::LogFault;

const STORY: [&str; 10] = [
    "What recovery finds and undoes, when power goes in the closing of a record",
    "",
    "Data lines 0 to 7 hold 1 in every byte. Core 0 logs line 3, closes the record, and writes 2 to it.",
    "Core 1 does so with line 6. Core 0 then logs line 3, which holds 2, and line 5 in a second record,",
    "and begins to close it: a write of its header to line 16, a fence, and a step in the block.",
    "Power goes at the write, at the fence, or after the step, and comes again.",
    "",
    "The walk finds the closed records, newest first: the second only if its closing was accepted.",
    "Undoing writes the logged lines back, and leaves in each the content that was logged first.",
    "On queued memory every line that waits when power goes comes back with 165 in every byte.",
];

pub(crate) fn tell_opening(rt: &impl Print) -> io::Result<()> {
    for text in STORY {
        println!(rt; "{text}")?;
    }
    Ok(())
}

pub(crate) fn tell_run(
    rt: &impl Print,
    kind: Kind,
    left: u32,
    outcome: Result<Outcome, LogFault>,
) -> io::Result<()> {
    println!(rt; "")?;
    match outcome {
        Ok(outcome) => {
            println!(rt; "{kind} memory, operations left for the closing: {left}")?;
            tell_closing(rt, outcome.closing)?;
            tell_outcome(rt, &outcome)
        }
        Err(_) => println!(rt; "{kind} memory cannot be run"),
    }
}

fn tell_closing(rt: &impl Print, closing: Result<(), LogFault>) -> io::Result<()> {
    match closing {
        Ok(()) => println!(rt; "  closing: accepted"),
        Err(LogFault::Memory { place: _, fault }) => println!(rt; "  closing: {fault}"),
        Err(_) => println!(rt; "  closing: refused"),
    }
}

fn tell_outcome(rt: &impl Print, outcome: &Outcome) -> io::Result<()> {
    let [first, second] = outcome.closed;
    println!(rt; "  the block counts closed records: core 0 has {first}, core 1 has {second}")?;
    let (found, held) = outcome.found;
    let (undone, written) = outcome.undone;
    let [third, fifth, sixth] = outcome.before;
    println!(rt;
        "  the walk finds {found} records with {held} entries; lines 3, 5, 6 hold {third}, {fifth}, {sixth}"
    )?;
    let [third, fifth, sixth] = outcome.after;
    println!(rt;
        "  undone are {undone} records with {written} entries; lines 3, 5, 6 hold {third}, {fifth}, {sixth}"
    )
}
