// What the check says of a line.
ghost use Rattle.std.specs.Prelude.{◌≡◌, IfOk, MatchResult, Some};
ghost use Rattle.std.specs.Option.{unwrap_or};
ghost use Rattle.unit.specs.Bytes.{no_bytes};
ghost use Rattle.unit.specs.Verdict.{verdict};
ghost use Rattle.unit_lines.specs.Line.{line_tables};
ghost use Rattle.unit_lines.specs.Outcomes.{judged, outcome_of, outcome_text, AcceptedLine};

use crate::error::LineError;
use crate::line::UnitLine;
use std::alloc::AllocError;
use std::fmt;
use unit::checked::CheckedUnit;
use unit::refusal::Refusal;

// No Option or Result: the line has one of three answers, and none of them is an error.
#[derive(Clone, Copy, PartialEq, Eq, Debug)]
pub enum Outcome {
    Accepted,
    Refused(Refusal),
    Unreadable,
}

impl fmt::Display for Outcome {
    ghost output = { λ o. Some (outcome_text o) };

    fn fmt<W: fmt::Write>(&self, f: &mut fmt::Formatter<W>) -> fmt::Result {
        match *self {
            Outcome::Accepted => write!(f, "accepted"),
            Outcome::Refused(refusal) => write!(f, "{refusal}"),
            Outcome::Unreadable => write!(f, "unreadable"),
        }
    }
}

impl UnitLine {
    // What the check says of the tables that were read.
    fn judge(&self) -> Outcome
        ensures { result ≡ judged (verdict self.now) }
    {
        CheckedUnit::try_from(self.tables()).map_or_else(Outcome::Refused, |_| Outcome::Accepted)
    }

    // Reads a line, and checks the unit that it stands for. It fails only for want of memory.
    #[tactic(auto, using(crate::proofs::Accepted::accepted_line))]
    pub fn outcome(&mut self, line: &[u8]) -> Result<Outcome, AllocError>
        ensures answer { IfOk result (λ o. o ≡ outcome_of line.now) }
        ensures accepted { AcceptedLine line.now }
        ensures memory { MatchResult result (λ _. self.new ≡ unwrap_or (line_tables line.now) no_bytes) (λ _. self.new ≡ no_bytes) }
    {
        match self.read(line) {
            Ok(()) => Ok(self.judge()),
            Err(LineError::Unreadable) => Ok(Outcome::Unreadable),
            // An `AllocError` has one value, so that the error of the line does not carry it.
            Err(LineError::Memory) => Err(AllocError),
        }
    }
}
