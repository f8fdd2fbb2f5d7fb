// Why a line of a bench is not answered by what it asks for.
ghost use Rattle.std.specs.Prelude.{◌≡◌};

use faults::Fault;
use std::alloc::AllocError;

// There is no memory for it, what it tries was refused, or the line asks for nothing, which the text says.
#[derive(Clone, Copy)]
pub enum Unanswered {
    Memory(AllocError),
    Refused(Fault),
    Unclear(&'static str),
}

impl From<AllocError> for Unanswered {
    ghost use Rattle.notation.specs.declared.unanswered.Unanswered.TheVariants.{Memory};

    ghost from_gives = { λ error s. s ≡ Memory error };

    fn from(error: AllocError) -> Unanswered {
        Unanswered::Memory(error)
    }
}

impl From<Fault> for Unanswered {
    ghost use Rattle.notation.specs.declared.unanswered.Unanswered.TheVariants.{Refused};

    ghost from_gives = { λ fault s. s ≡ Refused fault };

    fn from(fault: Fault) -> Unanswered {
        Unanswered::Refused(fault)
    }
}
