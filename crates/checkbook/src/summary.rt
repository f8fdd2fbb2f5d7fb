// The summary of an examination: a line for each thing found, and the verdict last.
ghost use Rattle.std.specs.Prelude.{Some};
ghost use Rattle.std.specs.Result.{result_err};
ghost use Rattle.checkbook.specs.Summaries.{found_line, summary, verdict_line};

use books::Report;
use faults::Fault;
use std::fmt;

// A line with a word and a number, where the number was found; else no text.
#[derive(Clone, Copy)]
struct FoundLine<'a> {
    word: &'a str,
    found: Option<usize>,
}

impl fmt::Display for FoundLine<'_> {
    ghost output = { λ line. Some (found_line line.word.now line.found) };

    fn fmt<W: fmt::Write>(&self, f: &mut fmt::Formatter<W>) -> fmt::Result {
        let word = self.word;
        match self.found {
            Some(number) => writeln!(f, "{word} {number}"),
            None => Ok(()),
        }
    }
}

// The line that says that the book is accepted, or with which fault it is refused.
#[derive(Clone, Copy)]
struct VerdictLine<'a>(&'a Result<(), Fault>);

impl fmt::Display for VerdictLine<'_> {
    ghost output = { λ line. Some (verdict_line (result_err line.0.now)) };

    fn fmt<W: fmt::Write>(&self, f: &mut fmt::Formatter<W>) -> fmt::Result {
        match self.0 {
            Ok(_) => writeln!(f, "accepted"),
            Err(fault) => writeln!(f, "refused {}", fault.cause),
        }
    }
}

// The whole summary.
#[derive(Clone, Copy)]
pub struct Summary<'a>(pub &'a Report);

impl fmt::Display for Summary<'_> {
    ghost output = { λ s. Some (summary s.0.now) };

    fn fmt<W: fmt::Write>(&self, f: &mut fmt::Formatter<W>) -> fmt::Result {
        let report = self.0;
        let line = |word, found| FoundLine { word, found };
        let dimension = line("dimension", report.dimension);
        let positions = line("positions", report.positions);
        let pairs = line("pairs", report.pairs);
        let verdict = VerdictLine(&report.verdict);
        write!(f, "{dimension}{positions}{pairs}{verdict}")
    }
}

#[cfg(test)]
mod tests {
    use super::*;
    use faults::Layer;
    use std::test::Fail;

    // The program's stored output is of an accepted book; this is the text of a refused one, with two parts not found.
    #[test]
    fn refused_book_is_told(rt: HostRuntime) -> Result<(), Fail> {
        let report = Report {
            dimension: Some(3),
            positions: None,
            pairs: None,
            verdict: Err(Fault::size(Layer::Family, 0)),
        };
        let text = format!(in rt.alloc(); "{}", Summary(&report))?;
        assert_eq!(rt; text.as_str(), "dimension 3\nrefused 3 size 0\n");
        Ok(())
    }
}
