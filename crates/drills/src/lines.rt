// The lines of a paragraph: which drill each asks for, and whether it is its turn.
use crate::desk::{Desk, Ended, Pair, Seen, told, told_waiting};
use crate::lookups::{check, fits, opened, recover, request, said, sheets_by, sheets_of};
use crate::tables::{answered, changed, dense, made};
use crate::whole::{Given, check_whole, handed, whole_round};
use family::Family;
use inquiry::reply;
use notation::{Unanswered, answer_of, bytes_of, number};
use session::{Ready, Waiting};
use std::alloc::Global;
use std::str::Lines;

// What a line asks of a session that is ready, read before the session moves: a text, for which it stays as it is, another session in its
// place, a request for a position with rows for its queries, or a round.
enum ReadyTask {
    Text(String),
    Open(Ready),
    Request(usize, Pair),
    Round(Given),
}

// What a line asks of one of which a lookup waits: a text, a recovery from two sheets, or that the lookup is given up.
enum WaitingTask {
    Text(String),
    Recover(Pair),
    Abandon,
}

// Answers each line by a line.
pub(crate) fn all_drilled<F: Family>(
    rt: &HostRuntime,
    family: &F,
    lines: Lines<'_>,
    mut desk: Desk,
) -> Result<Desk, Ended> {
    for line in lines {
        desk = printed(rt, drilled(rt.alloc(), family, desk, line))?;
    }
    Ok(desk)
}

// Prints what a drill came to.
pub(crate) fn printed(rt: &HostRuntime, (desk, came): Seen) -> Result<Desk, Ended> {
    match print_answer(rt, came) {
        Ok(_) => Ok(desk),
        Err(error) => Err(Ended { desk, error }),
    }
}

fn print_answer(rt: &HostRuntime, came: Result<String, Unanswered>) -> anyhow::Result<()> {
    let answer = answer_of(rt.alloc(), came)?;
    println!(rt; "{answer}")?;
    Ok(())
}

// What the drill of a line comes to, with the session as it then is. What the line asks for is read while the session stays; here, and in
// `whole_round` for the hosts, an error of reading and the session are put together, by hand, since a `?` would drop it, and a lookup
// that waits cannot be dropped.
fn drilled<F: Family>(heap: Global, family: &F, desk: Desk, line: &str) -> Seen {
    match desk {
        Desk::Ready(session) => match asked(heap, family, &session, line) {
            Ok(ReadyTask::Text(text)) => (Desk::Ready(session), Ok(text)),
            Ok(ReadyTask::Open(new)) => (Desk::Ready(new), said(heap, "opened")),
            Ok(ReadyTask::Request(t, rows)) => request(heap, family, session, t, rows),
            Ok(ReadyTask::Round(given)) => whole_round(heap, family, session, given),
            Err(stop) => (Desk::Ready(session), Err(stop)),
        },
        Desk::Waiting(waiting, queries) => match awaited(heap, family, &waiting, &queries, line) {
            Ok(WaitingTask::Text(text)) => (Desk::Waiting(waiting, queries), Ok(text)),
            Ok(WaitingTask::Recover(sheets)) => recover(heap, family, waiting, &sheets),
            Ok(WaitingTask::Abandon) => (Desk::Ready(waiting.abandon()), said(heap, "abandoned")),
            Err(stop) => (Desk::Waiting(waiting, queries), Err(stop)),
        },
    }
}

// Reads a line for a session that is ready. Whether it is a drill's turn is told before its words are read.
fn asked<F: Family>(
    heap: Global,
    family: &F,
    session: &Ready,
    line: &str,
) -> Result<ReadyTask, Unanswered> {
    let words: Vec<&str> = line.split(' ').collect(heap)?;
    Ok(match words.as_slice() {
        ["open", tape] => ReadyTask::Open(opened(heap, family, tape)?),
        ["check", t, first, second] => {
            ReadyTask::Text(check(heap, family, session, [*t, *first, *second])?)
        }
        ["check", t, a, b, c, d, one, two] => {
            let given = handed(heap, [*t, *a, *b, *c, *d, *one, *two])?;
            ReadyTask::Text(check_whole(heap, family, session, given)?)
        }
        ["fits"] => ReadyTask::Text(fits(heap, family, session)?),
        ["request", t, first, second] => {
            ReadyTask::Request(number(t), Pair::unwritten(heap, first, second)?)
        }
        ["round", t, a, b, c, d, one, two] => {
            ReadyTask::Round(handed(heap, [*t, *a, *b, *c, *d, *one, *two])?)
        }
        ["counters"] => ReadyTask::Text(told(heap, session)?),
        ["recover" | "ask", _, _] | ["abandon"] => return Err(Unanswered::Unclear("out of turn")),
        words => ReadyTask::Text(at_any_time(heap, family, words)?),
    })
}

// Reads a line for one of which a lookup waits, the turn first here too.
fn awaited<F: Family>(
    heap: Global,
    family: &F,
    waiting: &Waiting,
    queries: &Pair,
    line: &str,
) -> Result<WaitingTask, Unanswered> {
    let words: Vec<&str> = line.split(' ').collect(heap)?;
    Ok(match words.as_slice() {
        ["recover", one, two] => WaitingTask::Recover(sheets_of(heap, one, two)?),
        ["ask", one, two] => WaitingTask::Recover(sheets_by(heap, family, queries, [*one, *two])?),
        ["abandon"] => WaitingTask::Abandon,
        ["counters"] => WaitingTask::Text(told_waiting(heap, waiting)?),
        ["open", _]
        | ["fits"]
        | ["check" | "request", _, _, _]
        | ["check" | "round", _, _, _, _, _, _, _] => return Err(Unanswered::Unclear(
            "out of turn",
        )),
        words => WaitingTask::Text(at_any_time(heap, family, words)?),
    })
}

// The drills that need no session.
fn at_any_time<F: Family>(heap: Global, family: &F, words: &[&str]) -> Result<String, Unanswered> {
    match words {
        ["host", host] => made(heap, host),
        ["answer", host, query, sheet] => answered(heap, family, [*host, *query, *sheet]),
        ["dense", row, positions @ ..] => dense(heap, row, positions),
        ["change", count, tasks @ ..] => changed(heap, count, tasks),
        ["lookup", input] => looked_up(heap, input),
        _ => Err(Unanswered::Unclear("no such drill")),
    }
}

// What the program `lookup` answers to some bytes, in one line: a slash stands for each line feed.
fn looked_up(heap: Global, input: &str) -> Result<String, Unanswered> {
    let text = reply(heap, &bytes_of(heap, input)?)?;
    Ok(text.replace(heap, '\n', "/")?)
}
