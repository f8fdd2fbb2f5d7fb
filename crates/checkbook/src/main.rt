// The program `checkbook`: reads a book from standard input, and prints what it finds.

#![tactic(auto)]

ghost use Rattle.std.specs.Prelude.{OnOk, IfSome};
ghost use Rattle.std.specs.Io.KnownBytes.{Appends};
ghost use Rattle.checkbook.specs.Summaries.{summary_of};

mod summary;

use books::examine;
use std::alloc::Global;
use std::io::{Read, Write};
use summary::Summary;

// Examines all that a reader has left as a book, and writes the summary of that and nothing else.
fn run<R: Read + Drop, W: Write>(heap: Global, mut reader: R, writer: &mut W) -> anyhow::Result<()>
    ensures { OnOk result (IfSome (R.remaining reader) (λ bytes.
        Appends (W.contents writer.old) (W.contents writer.new) (summary_of bytes))) }
{
    let mut bytes = Vec::new(heap);
    let _ = reader.read_to_end(&mut bytes)?;
    let report = examine(bytes.as_slice());
    // as one text: in parts, what reads the output and leaves after the first line would make this fail
    let text = Summary(&report).to_string(heap)?;
    writer.write_all(text.as_bytes())?;
    Ok(())
}

fn main(rt: HostRuntime) -> anyhow::Result<()> {
    run(rt.alloc(), rt.stdin(), &mut rt.stdout())
}
