// The program `key`: reads an inquiry from standard input, and prints the whole working of its lookup or why it is refused.

#![tactic(auto)]

ghost use Rattle.std.specs.Prelude.{OnOk, IfSome};
ghost use Rattle.std.specs.Io.KnownBytes.{Appends};
ghost use Rattle.working.specs.Keys.{key};

use std::alloc::Global;
use std::io::{Read, Write};
use working::{bytes_enough, key};

// Writes the key to what a reader has left, and nothing else. (`lookup` has the like: to share these lines, the one call in which they
// differ would have to be handed over.)
fn run<R: Read + Drop, W: Write>(heap: Global, reader: R, writer: &mut W) -> anyhow::Result<()>
    ensures { OnOk result (IfSome (R.remaining reader) (λ input.
        Appends (W.contents writer.old) (W.contents writer.new) (key input))) }
{
    let mut input = Vec::new(heap);
    let _ = reader.take(bytes_enough()).read_to_end(&mut input)?;
    let text = key(heap, input.as_slice())?;
    writer.write_all(text.as_bytes())?;
    Ok(())
}

fn main(rt: HostRuntime) -> anyhow::Result<()> {
    run(rt.alloc(), rt.stdin(), &mut rt.stdout())
}
