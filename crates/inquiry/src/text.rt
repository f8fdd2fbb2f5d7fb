// What the program prints: lines of a word and numbers.
ghost use Rattle.std.specs.Prelude.{[], ◌∷◌, Some};
ghost use Rattle.inquiry.specs.Text.{line, findings_text, refusal_text};

use crate::found::Found;
use digits::Spaced;
use std::fmt;

// A line with a word and one number. It and `RowLine` stay two: one line over whatever is told would say its text by that of any
// `Display`, and no longer by `line`, and a number with a space before it would need a type of its own. That is no plainer.
#[derive(Clone, Copy)]
pub(crate) struct NumberLine<'a> {
    pub word: &'a str,
    pub number: usize,
}

impl fmt::Display for NumberLine<'_> {
    ghost output = { λ l. Some (line l.word.now (l.number ∷ [])) };

    fn fmt<W: fmt::Write>(&self, f: &mut fmt::Formatter<W>) -> fmt::Result {
        let word = self.word;
        let number = self.number;
        writeln!(f, "{word} {number}")
    }
}

// A line with a word and a row of digits.
#[derive(Clone, Copy)]
pub(crate) struct RowLine<'a> {
    pub word: &'a str,
    pub digits: &'a [u8],
}

impl fmt::Display for RowLine<'_> {
    ghost output = { λ l. Some (line l.word.now l.digits.now) };

    fn fmt<W: fmt::Write>(&self, f: &mut fmt::Formatter<W>) -> fmt::Result {
        let word = self.word;
        let digits = Spaced(self.digits);
        writeln!(f, "{word}{digits}")
    }
}

// The line that says with which number an inquiry is refused.
#[derive(Clone, Copy)]
pub struct Refusal(pub u32);

impl fmt::Display for Refusal {
    ghost output = { λ r. Some (refusal_text r.0) };

    fn fmt<W: fmt::Write>(&self, f: &mut fmt::Formatter<W>) -> fmt::Result {
        let number = self.0;
        writeln!(f, "refused {number}")
    }
}

// The five lines that tell what a lookup found.
impl fmt::Display for Found {
    ghost use Rattle.inquiry.specs.Findings.{findings};

    ghost output = { λ f. Some (findings_text (findings f)) };

    fn fmt<W: fmt::Write>(&self, f: &mut fmt::Formatter<W>) -> fmt::Result {
        let number = |word, number| NumberLine { word, number };
        let row = |word, digits| RowLine { word, digits };
        let position = number("position", self.position);
        let first = row("first", self.first.as_slice());
        let second = row("second", self.second.as_slice());
        let carried = number("carried", self.reading.carried);
        let entry = number("entry", usize::from(self.reading.entry));
        write!(f, "{position}{first}{second}{carried}{entry}")
    }
}
