// What the lines of an inquiry say, each by its kind.
ghost use Rattle.std.specs.Prelude.{◌≡◌, map, option_map};
ghost use Rattle.inquiry.specs.Grammar.{line_numbers, exactly, is_end};
ghost use Rattle.inquiry.specs.ByteRows.{byte_row};
ghost use Rattle.inquiry.specs.Stops.{ReadsAs};

use crate::numbers::line_numbers;
use crate::stop::Stop;
use std::alloc::Global;

// A line of exactly N numbers.
pub(crate) fn exactly<const N: usize>(heap: Global, line: &[u8]) -> Result<[u32; N], Stop>
    ensures { ReadsAs (λ ns. ns) (exactly N (line_numbers line.now)) result }
{
    let numbers = line_numbers(heap, line)?;
    numbers.as_slice().as_array().copied().ok_or(Stop::Form)
}

// A line of digits, as bytes. A number above 255 stands as 255, which is no digit either.
pub(crate) fn byte_row(heap: Global, line: &[u8]) -> Result<Vec<u8>, Stop>
    ensures { ReadsAs (λ v. v.items) (option_map byte_row (line_numbers line.now)) result }
{
    let numbers = line_numbers(heap, line)?;
    Ok(numbers.iter().map(|n| (*n).min(255) as u8).collect(heap)?)
}

// Whether what stands behind the fourth line is nothing, or a line feed and nothing behind it.
pub(crate) fn is_end(lines: &[&[u8]]) -> bool
    ensures { result ≡ is_end (map (λ x. x.now) lines.now) }
{
    match lines {
        [] => true,
        [last] => last.is_empty(),
        _ => false,
    }
}
