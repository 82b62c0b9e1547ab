// What a script has counted; at its largest a count stays.
use crate::number::decimal;
use std::fmt;

#[derive(Clone, Copy, Default)]
pub(crate) struct Counts {
    steps: u64,
    refused: u64,
    errors: u64,
    passed: u64,
    failed: u64,
}

impl Counts {
    pub(crate) fn count_step(&mut self, refused: bool) {
        self.steps = self.steps.saturating_add(1);
        if refused {
            self.refused = self.refused.saturating_add(1);
        }
    }

    pub(crate) fn count_error(&mut self) {
        self.errors = self.errors.saturating_add(1);
    }

    pub(crate) fn count_judged(&mut self, met: bool) {
        if met {
            self.passed = self.passed.saturating_add(1);
        } else {
            self.failed = self.failed.saturating_add(1);
        }
    }
}

impl fmt::Display for Counts {
    fn fmt<W: fmt::Write>(&self, f: &mut fmt::Formatter<W>) -> fmt::Result {
        let (steps, refused) = (decimal(self.steps), decimal(self.refused));
        let errors = decimal(self.errors);
        write!(f, "{steps} steps, {refused} refused, {errors} errors")?;
        if self.passed != 0 || self.failed != 0 {
            let (passed, failed) = (decimal(self.passed), decimal(self.failed));
            write!(f, ", {passed} passed, {failed} failed")?;
        }
        Ok(())
    }
}
