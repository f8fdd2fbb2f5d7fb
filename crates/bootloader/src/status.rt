// The status that a call from C returns.
ghost use Rattle.std.specs.Prelude.{◌≡◌, MatchResult};
ghost use Rattle.faults.specs.Faults.{number_of};

use faults::Fault;

// 0 where nothing was refused, else the fault's number. (A match: `map_or_else` tells the same two cases no more plainly.)
pub(crate) fn status(outcome: Result<(), Fault>) -> u32
    ensures { MatchResult outcome (λ _. result ≡ 0) (λ e. result ≡ number_of e.cause) }
{
    match outcome {
        Ok(()) => 0,
        Err(fault) => fault.cause.number(),
    }
}
