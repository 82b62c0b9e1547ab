// What 01 says of a step, and what the step did.
use crate::cells::{same_cells, same_reads};
use crate::show::{Lines, Shown};
use answers::{Answer, Outcome};
use device::Device;
use std::fmt;
use std::fmt::{Display, Formatter};

#[derive(Clone, Copy)]
pub(crate) enum What {
    // A refusal or read data; no cell changes.
    Outcome(Outcome),
    // Accepted, and no read.
    Accepted,
    // The same, and every read gives what it gave before.
    SameReads,
}

// The lines are those after the step.
#[derive(Clone, Copy)]
pub(crate) struct Expected {
    pub(crate) what: What,
    pub(crate) lines: u64,
}

// Also whether the cells, or all that can be read of them, are as before.
#[derive(Clone, Copy)]
pub(crate) struct Got {
    outcome: Outcome,
    lines: u64,
    same_cells: bool,
    same_reads: bool,
}

impl Got {
    pub(crate) fn new(before: Device, answer: Answer, after: Device) -> Got {
        Got {
            outcome: answer.outcome,
            lines: answer.lines(),
            same_cells: same_cells(before, after),
            same_reads: same_reads(before, after),
        }
    }

    pub(crate) fn meets(self, expected: Expected) -> bool {
        let met = match expected.what {
            What::Outcome(outcome) => self.outcome == outcome && self.same_cells,
            What::Accepted => self.outcome == Ok(0),
            What::SameReads => self.outcome == Ok(0) && self.same_reads,
        };
        met && self.lines == expected.lines
    }
}

// Lines are named where one is high.
impl Display for Expected {
    fn fmt<W: fmt::Write>(&self, f: &mut Formatter<W>) -> fmt::Result {
        match self.what {
            What::Outcome(outcome) => write!(f, "{}", Shown(outcome))?,
            What::Accepted => f.write_str("accepted")?,
            What::SameReads => f.write_str("accepted, every read as before")?,
        }
        if self.lines != 0 {
            write!(f, "{}", Lines(self.lines))?;
        }
        Ok(())
    }
}

impl Display for Got {
    fn fmt<W: fmt::Write>(&self, f: &mut Formatter<W>) -> fmt::Result {
        write!(f, "{}{}", Shown(self.outcome), Lines(self.lines))?;
        if !self.same_cells {
            f.write_str(", cells changed")?;
        }
        if !self.same_reads {
            f.write_str(", reads changed")?;
        }
        Ok(())
    }
}
