// The program `drills`: hosts, sessions, rounds and inquiries, a call for each line of its input, and what came of it printed.

#![tactic(auto)]

mod desk;
mod families;
mod hosts;
mod lines;
mod lookups;
mod parts;
mod shortened;
mod single;
mod tables;
mod whole;

use desk::{Desk, Ended};
use families::paragraph;
use std::io::Read;

// Goes through the paragraphs, each with a family of its own and all with one session.
fn drilled(rt: &HostRuntime, text: &str, mut desk: Desk) -> Result<Desk, Ended> {
    for part in text.split("\n\n") {
        desk = paragraph(rt, part, desk)?;
    }
    Ok(desk)
}

// Answers standard input. A lookup that waits at the end is given up.
fn run(rt: &HostRuntime) -> anyhow::Result<()> {
    let mut input = String::new(rt.alloc());
    let _ = rt.stdin().read_to_string(&mut input)?;
    // by hand, since the session is closed either way
    match drilled(rt, input.as_str(), Desk::at_first(rt.alloc())) {
        Ok(desk) => {
            desk.close();
            Ok(())
        }
        Err(Ended { desk, error }) => {
            desk.close();
            Err(error)
        }
    }
}

fn main(rt: HostRuntime) -> anyhow::Result<()> {
    run(&rt)
}
