// The program `lookup`: reads an inquiry from standard input, and prints what it finds or why it is refused.

#![tactic(auto)]

ghost use Rattle.std.specs.Prelude.{OnOk, IfSome};
ghost use Rattle.std.specs.Io.KnownBytes.{Appends};
ghost use Rattle.inquiry.specs.Replies.{reply};

use inquiry::{bytes_enough, reply};
use std::alloc::Global;
use std::io::{Read, Write};

// Writes the reply to what a reader has left, and nothing else.
fn run<R: Read + Drop, W: Write>(heap: Global, reader: R, writer: &mut W) -> anyhow::Result<()>
    ensures { OnOk result (IfSome (R.remaining reader) (λ input.
        Appends (W.contents writer.old) (W.contents writer.new) (reply input))) }
{
    let mut input = Vec::new(heap);
    let _ = reader.take(bytes_enough()).read_to_end(&mut input)?;
    let text = reply(heap, input.as_slice())?;
    writer.write_all(text.as_bytes())?;
    Ok(())
}

fn main(rt: HostRuntime) -> anyhow::Result<()> {
    run(rt.alloc(), rt.stdin(), &mut rt.stdout())
}
