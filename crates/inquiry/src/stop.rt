// Why a program has nothing to tell of an input.
ghost use Rattle.std.specs.Prelude.{◌≡◌, alloc_error};

use faults::Fault;
use std::alloc::{AllocError, AllocFailed};

// The input has another form than an inquiry, a call refused, or memory ran out. (The test benches have `Unanswered` for this: a
// line of theirs is no inquiry, and can be unclear.)
#[derive(Clone, Copy)]
pub enum Stop {
    Form,
    Refused(Fault),
    Memory(AllocError),
}

impl From<Fault> for Stop {
    ghost use Rattle.inquiry.specs.declared.stop.Stop.TheVariants.{Refused};

    ghost from_gives = { λ fault s. s ≡ Refused fault };

    fn from(fault: Fault) -> Stop {
        Stop::Refused(fault)
    }
}

impl From<AllocError> for Stop {
    ghost use Rattle.inquiry.specs.declared.stop.Stop.TheVariants.{Memory};

    ghost from_gives = { λ error s. s ≡ Memory error };

    fn from(error: AllocError) -> Stop {
        Stop::Memory(error)
    }
}

// A value that a vector had no room for is let go.
impl<T: Drop> From<AllocFailed<T>> for Stop {
    ghost use Rattle.inquiry.specs.declared.stop.Stop.TheVariants.{Memory};

    ghost from_gives = { λ _ s. s ≡ Memory alloc_error };

    fn from(refused: AllocFailed<T>) -> Stop {
        Stop::Memory(AllocError::from(refused))
    }
}
