// Drills of hosts: one is made, answers a query, tells its entries, or is given changes.
use crate::parts::{host_of, parts_of, set};
use crate::shortened::Shortened;
use family::Family;
use host::{Change, ChangeHost, Dense, Host};
use notation::{RefusalLine, Unanswered, answer_of, bytes_of, number};
use std::alloc::{AllocError, Global};

// Whether a host is made.
pub(crate) fn made(heap: Global, host: &str) -> Result<String, Unanswered> {
    let parts = parts_of(heap, host)?;
    let host = host_of(&parts)?;
    Ok(format!(in heap; "count {}", host.count())?)
}

// What a sheet holds after an answer, or after its refusal. Here and in the other drills an array of `&str` is words of one line as they
// stand there, unread; what is read has a parameter of its own.
pub(crate) fn answered<F: Family>(
    heap: Global,
    family: &F,
    [host, query, sheet]: [&str; 3],
) -> Result<String, Unanswered> {
    let parts = parts_of(heap, host)?;
    let host = host_of(&parts)?;
    let mut sheet = bytes_of(heap, sheet)?;
    match host.answer(family, &bytes_of(heap, query)?, &mut sheet) {
        Ok(_) => Ok(format!(in heap; "sheet{}", Shortened(&sheet))?),
        Err(fault) => Ok(format!(in heap; "{} sheet{}", RefusalLine(fault), Shortened(&sheet))?),
    }
}

// The entries that a dense host tells at some positions.
pub(crate) fn dense(heap: Global, row: &str, positions: &[&str]) -> Result<String, Unanswered> {
    let row = bytes_of(heap, row)?;
    let host = Dense::new(&row)?;
    let mut text = format!(in heap; "count {}", host.count())?;
    for position in positions {
        write!(text, " entry {}", host.entry(number(position)))?;
    }
    Ok(text)
}

// A change host that is given tasks, one after the other.
pub(crate) fn changed(heap: Global, count: &str, tasks: &[&str]) -> Result<String, Unanswered> {
    let mut host = ChangeHost::new(number(count))?;
    let mut text = format!(in heap; "count {}", host.count())?;
    for task in tasks {
        let came = answer_of(heap, tasked(heap, &mut host, task))?;
        write!(text, ", {came}")?;
    }
    Ok(text)
}

// One task: listing all changes, setting one, or telling what a position has.
fn tasked(heap: Global, host: &mut ChangeHost, task: &str) -> Result<String, Unanswered> {
    if task == "all" {
        return Ok(listed(heap, host)?);
    }
    if task.contains('=') {
        set(host, task)?;
        return Ok(String::from_str(heap, "set")?);
    }
    let position = number(task);
    let entry = host.entry(position);
    match host.told(position) {
        Some(digit) => Ok(format!(in heap; "told {digit} entry {entry}")?),
        None => Ok(format!(in heap; "told none entry {entry}")?),
    }
}

// All changes that a host holds, by position: the order in which it lists them is open.
fn listed(heap: Global, host: &ChangeHost) -> Result<String, AllocError> {
    let mut changes: Vec<Change> = host.changes().iter().copied().collect(heap)?;
    changes.sort_unstable_by_key(|change| change.position);
    let mut text = format!(in heap; "{} held", host.held())?;
    for change in &changes {
        write!(text, " {}={}", change.position, change.digit)?;
    }
    Ok(text)
}
