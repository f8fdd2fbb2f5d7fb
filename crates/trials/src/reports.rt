// Trials of an examination: what a report on a book holds.
use books::Report;
use faults::Fault;
use notation::RefusalLine;
use std::fmt;

// A number that was found, or a dash.
#[derive(Clone, Copy)]
struct NumberFound(Option<usize>);

impl fmt::Display for NumberFound {
    fn fmt<W: fmt::Write>(&self, f: &mut fmt::Formatter<W>) -> fmt::Result {
        match self.0 {
            Some(number) => write!(f, "{number}"),
            None => f.write_str("-"),
        }
    }
}

// That a book is accepted, or its refusal.
#[derive(Clone, Copy)]
struct Verdict(Result<(), Fault>);

impl fmt::Display for Verdict {
    fn fmt<W: fmt::Write>(&self, f: &mut fmt::Formatter<W>) -> fmt::Result {
        match self.0 {
            Ok(_) => f.write_str("accepted"),
            Err(fault) => write!(f, "{}", RefusalLine(fault)),
        }
    }
}

// A report in one line.
#[derive(Clone, Copy)]
pub(crate) struct ReportLine(pub(crate) Report);

impl fmt::Display for ReportLine {
    fn fmt<W: fmt::Write>(&self, f: &mut fmt::Formatter<W>) -> fmt::Result {
        let dimension = NumberFound(self.0.dimension);
        let positions = NumberFound(self.0.positions);
        let pairs = NumberFound(self.0.pairs);
        let verdict = Verdict(self.0.verdict);
        write!(
            f,
            "dimension {dimension} positions {positions} pairs {pairs} {verdict}"
        )
    }
}
