// The interface of every kind of host.
ghost use Rattle.std.specs.Prelude.{◌≡◌, ℕ, Some, None, MatchResult};
ghost use Rattle.scheme.specs.Answers.{answered};
ghost use Rattle.host.specs.Holdings.{Holding, WellHeld, answer_fault};

use family::Family;
use faults::Fault;

// How many entries a table has at most.
pub const MOST_ENTRIES: usize = 1_048_576;

// A host means a count n and a table of n entries, each a digit, and answers queries from them. (The usual words are server
// and database.) What this interface promises is the answering rule: whatever keeps it is a host, and what is proved of code
// that takes any host is proved from this rule alone.
pub trait Host {
    // what a host means: its count and its table
    ghost holding: { Self → Holding };

    // How many entries the table has, from 1 to 1,048,576.
    fn count(&self) -> usize
        ensures { result ≡ (holding self.now).count };

    // Adds the answer to a query, for a family of the host's count, digit by digit to what a sheet holds. A refusal writes
    // nothing, and count and table stay as they are.
    fn answer<F: Family>(&self, family: &F, query: &[u8], sheet: &mut [u8]) -> Result<(), Fault>
        ensures { MatchResult result
            (λ _. (answer_fault (holding self.now).count (F.Family.vectors family.now) query.now sheet.old ≡ None)
            × (sheet.new ≡ answered (F.Family.vectors family.now) (holding self.now).table query.now sheet.old))
            (λ e. (answer_fault (holding self.now).count (F.Family.vectors family.now) query.now sheet.old ≡ Some e)
            × (sheet.new ≡ sheet.old)) };

    // the law that each kind is proved to keep: a count within its limits, digits, and 0 beyond the last position
    ghost held_well: { (h : Self) → WellHeld (holding h) };
}
