// What a round refuses before it begins.
ghost use Rattle.std.specs.Prelude.{◌≡◌, Some, None, MatchResult};
ghost use Rattle.rounds.specs.Lent.{before};
ghost use Rattle.rounds.specs.Rounds.{handed, hosts_fault, rows_fault, round_fault};

use crate::rows::Rows;
use digits::{check_equal, check_length};
use family::Family;
use faults::{Fault, Layer};
use host::Host;
use scheme::sheet_size;
use session::Ready;

// Refuses a host whose count is not the family's, the first before the second.
fn check_hosts<F: Family, A: Host, B: Host>(
    family: &F,
    first_host: &A,
    second_host: &B,
) -> Result<(), Fault>
    ensures { let fault = hosts_fault (F.Family.vectors family.now).count (A.Host.holding first_host.now).count
        (B.Host.holding second_host.now).count in
        MatchResult result (λ _. fault ≡ None) (λ e. fault ≡ Some e) }
{
    check_equal(Layer::Host, family.count(), first_host.count())?;
    check_equal(Layer::Host, family.count(), second_host.count())
}

// Refuses rows of other lengths than the family's queries and sheets have.
fn check_rows<F: Family>(family: &F, rows: &Rows<'_>) -> Result<(), Fault>
    ensures { let fault = rows_fault (F.Family.vectors family.now).dim (before rows.now) in
        MatchResult result (λ _. fault ≡ None) (λ e. fault ≡ Some e) }
{
    let k = family.dimension();
    let size = sheet_size(family);
    check_length(rows.first_query, k)?;
    check_length(rows.second_query, k)?;
    check_length(rows.first_sheet, size)?;
    check_length(rows.second_sheet, size)
}

// What a round would be refused for, but for sheets at odds. The session stays where it is, and nothing is written.
pub fn check_round<F: Family, A: Host, B: Host>(
    session: &Ready,
    family: &F,
    first_host: &A,
    second_host: &B,
    position: usize,
    rows: &Rows<'_>,
) -> Result<(), Fault>
    ensures { let r = handed session.now (F.Family.vectors family.now) (A.Host.holding first_host.now)
        (B.Host.holding second_host.now) position rows.now in
        MatchResult result (λ _. round_fault r ≡ None) (λ e. round_fault r ≡ Some e) }
{
    session.check_family(family)?;
    check_hosts(family, first_host, second_host)?;
    check_rows(family, rows)?;
    session.check_request(family, position, rows.first_query, rows.second_query)
}
