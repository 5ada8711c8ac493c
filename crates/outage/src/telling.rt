// Prints the story.
use crate::run::Account;
use crate::story::{Kind, LINES, Part, STEPS};
use memory::MemoryFault;
use std::io;

const RULES: [&str; 7] = [
    "Power goes at one of these operations and comes again. Then each line is read, and stands",
    "old, new, torn (the first 32 bytes new, the rest old) or other.",
    "",
    "On straight memory a write is durable once it completes. On queued memory it waits until a",
    "fence completes; if power goes before, the choice says what is left of each waiting line.",
    "A line that is durable keeps what it holds. Any other may stand in any of the four ways,",
    "and so may the line of the write at which power goes.",
];

pub(crate) fn tell_opening(rt: &impl Print) -> io::Result<()> {
    println!(rt; "What stands in a memory after power goes")?;
    println!(rt; "")?;
    println!(rt;
        "Each memory has {LINES} lines of 64 bytes. All stand old, and a write makes a line new. It is asked for"
    )?;
    tell_steps(rt)?;
    for rule in RULES {
        println!(rt; "{rule}")?;
    }
    Ok(())
}

// The steps on one line.
fn tell_steps(rt: &impl Print) -> io::Result<()> {
    for (i, step) in STEPS.iter().enumerate() {
        let gap = if i == 0 { "  " } else { ", " };
        print!(rt; "{gap}{step}")?;
    }
    println!(rt; "")
}

pub(crate) fn tell_part(rt: &impl Print, part: Part) -> io::Result<()> {
    let operations = part.operations();
    println!(rt; "")?;
    println!(rt; "{part}, after {operations} operations")
}

pub(crate) fn tell_outcome(
    rt: &impl Print,
    kind: Kind,
    outcome: Result<Account, MemoryFault>,
) -> io::Result<()> {
    println!(rt; "")?;
    match outcome {
        Ok(account) => tell_account(rt, kind, &account),
        Err(fault) => println!(rt; "{kind} cannot be run: {fault}"),
    }
}

fn tell_account(rt: &impl Print, kind: Kind, account: &Account) -> io::Result<()> {
    match account.history.loss {
        Some(loss) => {
            let fault = loss.fault;
            println!(rt; "{kind} answers {fault}")?;
        }
        None => println!(rt; "{kind} answers every operation")?,
    }
    for (line, stands) in account.stands.iter().enumerate() {
        let number = line as u16;
        let asked = account.history.asked(number);
        let durability = account.history.durability(number, kind);
        println!(rt; "  line {line}: asked {asked:<7}  {durability:<11}  stands {stands}")?;
    }
    Ok(())
}
