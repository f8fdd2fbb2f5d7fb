// The call of a host: what it adds to a sheet for a query.
ghost use Rattle.std.specs.Prelude.{◌≡◌, Some, None, MatchOption, MatchResult};
ghost use Rattle.digits.specs.Rows.{at};
ghost use Rattle.faults.specs.Faults.{number_of};
ghost use Rattle.scheme.specs.Answers.{answered};
ghost use Rattle.words.specs.Words.{word_vectors};
ghost use Rattle.bootloader.specs.Calls.{answer_call_fault};

use crate::status::status;
use faults::Fault;
use host::{Dense, Host};
use words::Words;

// Adds a table's answer to a query to what a sheet holds, or refuses and leaves the sheet.
fn add_answer(h: u32, q: u32, table: &[u8], query: &[u8], sheet: &mut [u8]) -> Result<(), Fault>
    ensures { MatchResult result
        (λ _. (answer_call_fault h q table.now query.now sheet.old ≡ None)
        × (sheet.new ≡ answered (word_vectors h q) (at table.now) query.now sheet.old))
        (λ e. (answer_call_fault h q table.now query.now sheet.old ≡ Some e) × (sheet.new ≡ sheet.old)) }
{
    let family = Words::new(h as usize, q as usize)?;
    let host = Dense::new(table)?;
    host.answer(&family, query, sheet)
}

// What a host of a table adds to a sheet for a query, for words of h letters from an alphabet of q.
#[unsafe(no_mangle)]
pub extern "C" fn visordate_answer(
    h: u32,
    q: u32,
    table: &[u8],
    query: &[u8],
    sheet: &mut [u8],
) -> u32
    ensures { MatchOption (answer_call_fault h q table.now query.now sheet.old)
        ((result ≡ 0) × (sheet.new ≡ answered (word_vectors h q) (at table.now) query.now sheet.old))
        (λ e. (result ≡ number_of e.cause) × (sheet.new ≡ sheet.old)) }
{
    status(add_answer(h, q, table, query, sheet))
}
