// A host that is lent: a reference to one is a host too, so that hosts may be summed and handed on without moving them.
use crate::host::Host;
use family::Family;
use faults::Fault;

impl<H: Host> Host for &H {
    ghost holding = { λ h. H.Host.holding h.now };

    ghost held_well = { λ h. H.Host.held_well h.now };

    fn count(&self) -> usize {
        (**self).count()
    }

    fn answer<F: Family>(&self, family: &F, query: &[u8], sheet: &mut [u8]) -> Result<(), Fault> {
        (**self).answer(family, query, sheet)
    }
}
