// Faults as text: a cause as its number, its word and what it names, a layer as its word, and a fault as its cause and its layer.
ghost use Rattle.std.specs.Prelude.{Some};
ghost use Rattle.faults.specs.Text.{cause_text, layer_text, fault_text};

use crate::{Cause, Fault, Layer};
use std::fmt;

impl fmt::Display for Cause {
    ghost output = { λ c. Some (cause_text c) };

    fn fmt<W: fmt::Write>(&self, f: &mut fmt::Formatter<W>) -> fmt::Result {
        let number = self.number();
        let word = self.word();
        match self {
            Cause::Unmatched(i, j) => write!(f, "{number} {word} {i} {j}"),
            Cause::Length(n)
            | Cause::Digit(n)
            | Cause::Size(n)
            | Cause::Counts(n)
            | Cause::Position(n)
            | Cause::Spent(n)
            | Cause::AtOdds(n)
            | Cause::Full(n) => write!(f, "{number} {word} {n}"),
        }
    }
}

impl fmt::Display for Layer {
    ghost output = { λ l. Some (layer_text l) };

    fn fmt<W: fmt::Write>(&self, f: &mut fmt::Formatter<W>) -> fmt::Result {
        match self {
            Layer::Element => f.write_str("element"),
            Layer::Family => f.write_str("family"),
            Layer::Host => f.write_str("host"),
            Layer::Session => f.write_str("session"),
        }
    }
}

impl fmt::Display for Fault {
    ghost output = { λ e. Some (fault_text e) };

    fn fmt<W: fmt::Write>(&self, f: &mut fmt::Formatter<W>) -> fmt::Result {
        let cause = self.cause;
        let layer = self.layer;
        write!(f, "{cause} {layer}")
    }
}
