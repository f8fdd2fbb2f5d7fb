// Rows of bytes, two hexadecimal digits each.
ghost use Rattle.std.specs.Prelude.{◌≡◌, ◌<◌, IfOk};
ghost use Rattle.notation.specs.Bytes.{nibble, hex_bytes};

use std::alloc::{AllocError, Global};

// What one hexadecimal digit stands for. By hand, since all else counts as 0 on a bench, capital letters too, which the library's
// `to_digit` would read.
fn nibble(c: u8) -> u8
    ensures value { result ≡ nibble c }
    ensures bound { result < 16 }
{
    match c {
        b'0'..=b'9' => c - b'0',
        b'a'..=b'f' => c - b'a' + 10,
        _ => 0,
    }
}

// The bytes that a word writes, two letters each; a letter without a second writes none, and so does a lone dash.
pub fn bytes_of(heap: Global, word: &str) -> Result<Vec<u8>, AllocError>
    ensures { IfOk result (λ v. v.items ≡ hex_bytes word.now) }
{
    let (pairs, _) = word.as_bytes().as_chunks::<2>();
    pairs
        .iter()
        .map(|[high, low]| nibble(*high) * 16 + nibble(*low))
        .collect(heap)
}
