// A single host of the drills, dense or of changes.
use family::Family;
use faults::Fault;
use host::{ChangeHost, Dense, Host};

// A dense host or a change host. An enum, and no `dyn Host`, since `answer` is generic in the family.
#[derive(Clone, Copy)]
pub(crate) enum Single<'a> {
    Dense(Dense<'a>),
    Change(ChangeHost),
}

impl Host for Single<'_> {
    ghost use Rattle.drills.specs.Singles.{single_holding, single_held};

    ghost holding = { λ h. single_holding h };

    ghost held_well = { λ h. single_held h };

    fn count(&self) -> usize {
        match self {
            Single::Dense(host) => host.count(),
            Single::Change(host) => host.count(),
        }
    }

    fn answer<F: Family>(&self, family: &F, query: &[u8], sheet: &mut [u8]) -> Result<(), Fault> {
        match self {
            Single::Dense(host) => host.answer(family, query, sheet),
            Single::Change(host) => host.answer(family, query, sheet),
        }
    }
}
