// What is proved of the definitions, each fact as the contract of a function, since what a contract states has to be proved.
ghost use Rattle.scheme.specs.Counters.{RunCounters};
ghost use Rattle.scheme.specs.Law.{LawOfRuns};
ghost use Rattle.scheme.specs.Published.{AsPublished};
ghost use Rattle.scheme.specs.Steps.{OneStep};
ghost use Rattle.scheme.specs.Tables.{HostsOfTables};

// Holds in its contract the law of all runs, of every list of calls on a session: a lookup gives the table's entry, and no
// host learns the position.
pub fn law_of_runs()
    ensures { LawOfRuns }
{}

// Holds in its contract that opening refuses exactly the rows that are no tape of digits; that a ready session takes every
// request, and a waiting one every recovery and abandonment; that what such a call shows, and where it leads, is settled; that
// no state takes another call; and that exactly the requests that fit are taken, and exactly the entries read that can be.
#[tactic(auto, using(crate::proofs::Steps::stepping))]
pub fn one_step()
    ensures { OneStep }
{}

// Holds in its contract what a session keeps through a run, which is all that it was opened on, and what its numbers say of
// the run that led to it: requests taken are lookups read plus lookups that ended unread, plus one while waiting, and the
// place is the requests taken times the dimension.
#[tactic(auto, using(crate::proofs::Counters::counting))]
pub fn run_counters()
    ensures { RunCounters }
{}

// Holds in its contract that each table has a host, that a table is told by its entries at positions, and that the sum of two
// tables answers with the sum of the answers, so that hosts of two tables, one after the other on a sheet, are a host of the sum.
#[tactic(auto, using(crate::proofs::Tables::tables))]
pub fn hosts_of_tables()
    ensures { HostsOfTables }
{}

// Holds in its contract that answers and recovery are those of the scheme as it was published: a sheet is the value and the
// derivative of the table's polynomial at the query's point, and recovery solves the four equations that two sheets give.
#[tactic(auto, using(crate::proofs::Published::published))]
pub fn as_published()
    ensures { AsPublished }
{}
