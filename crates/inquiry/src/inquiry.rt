// An inquiry, read from bytes.
ghost use Rattle.std.specs.Prelude.{map, option_map};
ghost use Rattle.inquiry.specs.Grammar.{said_in, inquiry_in, inquiry_of};
ghost use Rattle.inquiry.specs.Stops.{ReadsAs};

use crate::lines::{byte_row, exactly, is_end};
use crate::numbers::parts_at;
use crate::stop::Stop;
use std::alloc::Global;

// The most bytes that an input may have.
pub(crate) const MOST_BYTES: usize = 8192;

// What an inquiry says: a family of words, a position in it, a host's table, and a tape. Nothing is checked yet but its form.
#[derive(Drop)]
pub struct Inquiry {
    pub letters: usize,
    pub alphabet: usize,
    pub position: usize,
    pub table: Vec<u8>,
    pub tape: Vec<u8>,
}

impl Inquiry {
    ghost use Rattle.inquiry.specs.Inquiries.{in_bytes, said};

    // What four lines say.
    #[tactic(auto, unfolding(crate::specs::Grammar::said_in))]
    fn from_lines(
        heap: Global,
        first: &[u8],
        second: &[u8],
        third: &[u8],
        fourth: &[u8],
    ) -> Result<Inquiry, Stop>
        ensures { ReadsAs said (option_map in_bytes (said_in first.now second.now third.now fourth.now)) result }
    {
        let [letters, alphabet] = exactly::<2>(heap, first)?;
        let [position] = exactly::<1>(heap, second)?;
        let table = byte_row(heap, third)?;
        let tape = byte_row(heap, fourth)?;
        Ok(Inquiry {
            letters: letters as usize,
            alphabet: alphabet as usize,
            position: position as usize,
            table,
            tape,
        })
    }

    // What the lines say that stand between line feeds.
    #[tactic(auto, using(crate::proofs::Forms::too_few), unfolding(crate::specs::Grammar::inquiry_in))]
    fn from_parts(heap: Global, lines: &[&[u8]]) -> Result<Inquiry, Stop>
        ensures { ReadsAs said (option_map in_bytes (inquiry_in (map (λ x. x.now) lines.now))) result }
    {
        let [first, second, third, fourth, end @ ..] = lines else {
            return Err(Stop::Form);
        };
        if !is_end(end) {
            return Err(Stop::Form);
        }
        Inquiry::from_lines(heap, first, second, third, fourth)
    }

    // Reads an inquiry. An input of another form is refused.
    #[tactic(auto, unfolding(crate::specs::Grammar::inquiry_of))]
    pub fn read(heap: Global, input: &[u8]) -> Result<Inquiry, Stop>
        ensures { ReadsAs said (option_map in_bytes (inquiry_of input.now)) result }
    {
        if input.len() > MOST_BYTES {
            return Err(Stop::Form);
        }
        Inquiry::from_parts(heap, parts_at(heap, b'\n', input)?.as_slice())
    }
}
