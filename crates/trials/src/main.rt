// The program `trials`: runs one case of the layers below for each line of its input, and prints what came of it.

#![tactic(auto)]

mod cases;
mod elements;
mod families;
mod recoveries;
mod reports;

use cases::tried;
use notation::answer_of;
use std::io::Read;

// Answers each line of standard input by a line.
fn run(rt: &HostRuntime) -> anyhow::Result<()> {
    let mut input = String::new(rt.alloc());
    let _ = rt.stdin().read_to_string(&mut input)?;
    for line in input.as_str().lines() {
        let answer = answer_of(rt.alloc(), tried(rt.alloc(), line))?;
        println!(rt; "{answer}")?;
    }
    Ok(())
}

fn main(rt: HostRuntime) -> anyhow::Result<()> {
    run(&rt)
}
