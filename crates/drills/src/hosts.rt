// Hosts of every kind as one, for the drills: a single host, or sums of two, three or four.
use crate::single::Single;
use family::Family;
use faults::Fault;
use host::{Host, Sum};

// Two of them, summed.
pub(crate) type Two<'a> = Sum<Single<'a>, Single<'a>>;

// As many single hosts as are summed: the first two, and then the third, or the sum of the third and the fourth. An enum, and no
// `dyn Host`, since `answer` is generic in the family.
#[derive(Drop)]
pub(crate) enum Any<'a> {
    One(Single<'a>),
    Two(Two<'a>),
    Three(Sum<Two<'a>, Single<'a>>),
    Four(Sum<Two<'a>, Two<'a>>),
}

impl Host for Any<'_> {
    ghost use Rattle.drills.specs.Hosts.{any_holding, any_held};

    ghost holding = { λ h. any_holding h };

    ghost held_well = { λ h. any_held h };

    fn count(&self) -> usize {
        match self {
            Any::One(host) => host.count(),
            Any::Two(host) => host.count(),
            Any::Three(host) => host.count(),
            Any::Four(host) => host.count(),
        }
    }

    fn answer<F: Family>(&self, family: &F, query: &[u8], sheet: &mut [u8]) -> Result<(), Fault> {
        match self {
            Any::One(host) => host.answer(family, query, sheet),
            Any::Two(host) => host.answer(family, query, sheet),
            Any::Three(host) => host.answer(family, query, sheet),
            Any::Four(host) => host.answer(family, query, sheet),
        }
    }
}
