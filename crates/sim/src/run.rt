// A script that is being run, one line at a time.
use crate::block::Block;
use crate::counts::Counts;
use crate::errors::{Failure, LineError};
use crate::expect::{Expectation, Last};
use crate::flags::Flags;
use crate::number::decimal;
use crate::output::Output;
use crate::parse::parse;
use crate::replay::{Ending, replay_file};
use crate::request::{Request, Row};
use device::Device;
use script::step_of;
use std::io;
use std::rt::Files;

#[derive(Drop)]
pub(crate) struct Run {
    device: Device,
    // The number of the present line.
    line: u64,
    counts: Counts,
    // What the last step answered, and whether a line was in error since.
    last: Option<Last>,
    after_error: bool,
    // The block that is open.
    block: Option<Block>,
}

impl Run {
    // A fresh device before the first line.
    pub(crate) fn new() -> Run {
        Run {
            device: Device::fresh(),
            line: 0,
            counts: Counts::default(),
            last: None,
            after_error: false,
            block: None,
        }
    }

    // Counts a step, and keeps what it answered.
    fn count_step(&mut self, last: Last) {
        self.counts.count_step(last.outcome.is_err());
        self.last = Some(last);
        self.after_error = false;
    }

    // Takes a step, or keeps a write of a block, to be judged at the block's end.
    fn step<P: Print>(
        &mut self,
        row: Row,
        out: &mut Output<'_, P>,
    ) -> Result<(), Failure<'static>> {
        let second_open = self.device.second_open;
        if let Some(block) = &mut self.block {
            return Ok(block.keep(row, second_open)?);
        }
        let stepped = self.device.step(step_of(row));
        self.device = stepped.device;
        let last = Last::from(stepped.answer);
        self.count_step(last);
        let line = decimal(self.line);
        Ok(out.put_line(format_args!("{line} {last}"))?)
    }

    // Replays a capture, which is a step with the value 0 and the word 0, unless a file is at fault.
    fn replay<'a, R: Print + Files + Alloc>(
        &mut self,
        rt: &R,
        from: &'a str,
        to: &'a str,
        out: &mut Output<'_, R>,
    ) -> Result<(), Failure<'a>> {
        if self.block.is_some() {
            return Err(Failure::Line(LineError::Unlisted));
        }
        let replay = replay_file(rt, self.device, from, to)?;
        self.device = replay.device;
        let answer = self.device.answered(Ok(0), 0).answer;
        let lines = Flags::twelve(answer.lines());
        let outcome = replay.outcome;
        self.count_step(Last {
            outcome: outcome.map(|_| 0).map_err(|refused| refused.number),
            lines,
            moved: 0,
        });
        let line = decimal(self.line);
        let ending = Ending { outcome, lines };
        Ok(out.put_line(format_args!("{line} {ending}"))?)
    }

    // Judges an expectation by the last step.
    fn judge<P: Print>(
        &mut self,
        expected: Expectation,
        out: &mut Output<'_, P>,
    ) -> Result<(), Failure<'static>> {
        if self.block.is_some() {
            return Err(Failure::Line(LineError::InBlock));
        }
        let Some(last) = self.last else {
            return Err(Failure::Line(LineError::Early));
        };
        if self.after_error {
            return Err(Failure::Line(LineError::AfterError));
        }
        let got = last.beside(expected);
        let met = got == expected;
        self.counts.count_judged(met);
        let line = decimal(self.line);
        if met {
            out.put_line(format_args!("{line} met"))?;
        } else {
            out.put_line(format_args!("{line} FAILED expected {expected} got {got}"))?;
        }
        Ok(())
    }

    fn begin_block(&mut self) -> Result<(), Failure<'static>> {
        if self.block.is_some() {
            return Err(Failure::Line(LineError::Nested));
        }
        self.block = Some(Block::begun_at(self.line));
        Ok(())
    }

    fn end_block<P: Print>(&mut self, out: &mut Output<'_, P>) -> Result<(), Failure<'static>> {
        let Some(block) = self.block.take() else {
            return Err(Failure::Line(LineError::NoBegin));
        };
        Ok(block.put_verdict(self.device, self.line, out)?)
    }

    // Runs what a line asks for.
    fn run_request<'a, R: Print + Files + Alloc>(
        &mut self,
        rt: &R,
        text: &'a [u8],
        out: &mut Output<'_, R>,
    ) -> Result<(), Failure<'a>> {
        match parse(text, self.line)? {
            Request::Blank => Ok(()),
            Request::Step(row) => self.step(row, out),
            Request::Replay { from, to } => self.replay(rt, from, to, out),
            Request::Expect(expectation) => self.judge(expectation, out),
            Request::Begin => self.begin_block(),
            Request::End => self.end_block(out),
        }
    }

    // Puts what is wrong with a line, and counts it.
    fn put_error<P: Print>(
        &mut self,
        line: u64,
        error: LineError<'_>,
        out: &mut Output<'_, P>,
    ) -> io::Result<()> {
        self.counts.count_error();
        self.after_error = true;
        out.put_line(format_args!("{} error {error}", decimal(line)))
    }

    // Runs the next line.
    pub(crate) fn run_line<R: Print + Files + Alloc>(
        &mut self,
        rt: &R,
        text: &[u8],
        out: &mut Output<'_, R>,
    ) -> io::Result<()> {
        self.line = self.line.saturating_add(1);
        match self.run_request(rt, text, out) {
            Ok(()) => Ok(()),
            Err(Failure::Line(error)) => self.put_error(self.line, error, out),
            Err(Failure::Program(error)) => Err(error),
        }
    }

    // The end of the script: a block that is open is an error of the line that began it. The last line has the counts.
    pub(crate) fn finish<P: Print>(mut self, out: &mut Output<'_, P>) -> io::Result<()> {
        if let Some(block) = self.block {
            self.put_error(block.begin, LineError::NoEnd, out)?;
        }
        out.put_line(self.counts)
    }
}
