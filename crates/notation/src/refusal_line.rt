// A refusal as text.
ghost use Rattle.std.specs.Prelude.{◌<◌, Some};
ghost use Rattle.notation.specs.Answers.{refused_text};

use faults::Fault;
use std::fmt;

// A refusal, with its layer.
#[derive(Clone, Copy)]
pub struct RefusalLine(pub Fault);

impl fmt::Display for RefusalLine {
    ghost output = { λ r. Some (refused_text r.0) };

    fn fmt<W: fmt::Write>(&self, f: &mut fmt::Formatter<W>) -> fmt::Result {
        let fault = self.0;
        write!(f, "refused {fault}")
    }
}
