// A whole lookup by the calls from C, proved from what each call promises and from nothing else.
ghost use Rattle.std.specs.Prelude.{◌≡◌, ◌∷◌, [], MatchOption};
ghost use Rattle.digits.specs.Rows.{at};
ghost use Rattle.faults.specs.Faults.{number_of};
ghost use Rattle.bootloader.specs.Lookups.{lookup_fault};

use crate::answering::visordate_answer;
use crate::asking::visordate_request;
use crate::recovering::visordate_recover;

// Requests the entry at a position, has two hosts of one table answer into zeroed sheets, and recovers. So the calls that a program
// in C makes in turn are a run of which the law speaks, and the law, as the request promises it, gives the entry. It is here to be
// proved, by the calls' numbers alone, and no caller gets it: where a later call is refused, what the earlier ones wrote stays
// written.
pub(crate) fn look_up(
    h: u32,
    q: u32,
    position: u32,
    table: &[u8],
    tape: &[u8],
    first: &mut [u8],
    second: &mut [u8],
    shift: &mut [u8],
    one: &mut [u8],
    two: &mut [u8],
    entry: &mut [u8],
) -> u32
    ensures { MatchOption (lookup_fault h q position table.now tape.now first.old second.old shift.old one.old two.old entry.old)
        ((result ≡ 0) × (entry.new ≡ at table.now position ∷ []))
        (λ e. (result ≡ number_of e.cause) × (entry.new ≡ entry.old)) }
{
    let asked = visordate_request(h, q, position, tape, first, second, shift);
    if asked != 0 {
        return asked;
    }
    one.fill(0);
    let answered = visordate_answer(h, q, table, first, one);
    if answered != 0 {
        return answered;
    }
    two.fill(0);
    let answered = visordate_answer(h, q, table, second, two);
    if answered != 0 {
        return answered;
    }
    visordate_recover(h, q, position, shift, one, two, entry)
}
