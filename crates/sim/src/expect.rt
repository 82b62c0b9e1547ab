// What the last step answered, and what is expected of it.
use crate::flags::Flags;
use crate::number::{decimal, hex};
use answers::Answer;
use std::fmt;

#[derive(Clone, Copy, PartialEq, Eq)]
pub(crate) enum Expectation {
    Value(u64),
    Refused(u64),
    Lines(Flags),
    Moved(u64),
}

impl fmt::Display for Expectation {
    fn fmt<W: fmt::Write>(&self, f: &mut fmt::Formatter<W>) -> fmt::Result {
        match *self {
            Expectation::Value(value) => write!(f, "0x{}", hex(value)),
            Expectation::Refused(number) => write!(f, "refused {}", decimal(number)),
            Expectation::Lines(flags) => write!(f, "lines {flags}"),
            Expectation::Moved(word) => write!(f, "moved 0x{}", hex(word)),
        }
    }
}

// The read value of a step or the number of its refusal, the lines after it, and the bits that it moved.
// A refusal by its number: a step's and a replay's are of two types, and a line may expect a number that neither has.
#[derive(Clone, Copy)]
pub(crate) struct Last {
    pub(crate) outcome: Result<u64, u64>,
    pub(crate) lines: Flags,
    pub(crate) moved: u64,
}

impl From<Answer> for Last {
    fn from(answer: Answer) -> Last {
        Last {
            outcome: answer.outcome.map_err(u64::from),
            lines: Flags::twelve(answer.lines()),
            moved: answer.moved,
        }
    }
}

impl Last {
    // What an expectation of the kind of another one would have to be to be met.
    pub(crate) fn beside(self, other: Expectation) -> Expectation {
        match other {
            Expectation::Value(_) | Expectation::Refused(_) => match self.outcome {
                Ok(value) => Expectation::Value(value),
                Err(number) => Expectation::Refused(number),
            },
            Expectation::Lines(flags) => Expectation::Lines(self.lines.first(flags)),
            Expectation::Moved(_) => Expectation::Moved(self.moved),
        }
    }
}

impl fmt::Display for Last {
    fn fmt<W: fmt::Write>(&self, f: &mut fmt::Formatter<W>) -> fmt::Result {
        let (lines, moved) = (self.lines, hex(self.moved));
        match self.outcome {
            Ok(value) => write!(f, "ok 0x{} {lines} 0x{moved}", hex(value)),
            Err(number) => write!(f, "refused {} {lines} 0x{moved}", decimal(number)),
        }
    }
}
