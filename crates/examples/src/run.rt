// A run of the examples: where it prints, the device that the steps go to, and how many comparisons passed and failed.
use crate::cells::same_cells;
use crate::clash::Found;
use crate::expected::{Expected, Got, What};
use crate::kinds::{bridge_read, bridge_write, bus_read, bus_write};
use crate::show::{Moved, Orders};
use access::Refusal;
use bridge_registers::Register;
use device::{Device, Stepped};
use std::fmt::Display;
use std::io;
use steps::Step;

#[derive(Drop)]
pub(crate) struct Run<'a, P> {
    rt: &'a P,
    device: Device,
    passed: u64,
    failed: u64,
}

impl<'a, P: Print> Run<'a, P> {
    pub(crate) fn new(rt: &'a P) -> Self {
        Run {
            rt,
            device: Device::fresh(),
            passed: 0,
            failed: 0,
        }
    }

    pub(crate) fn fresh(mut self) -> Self {
        self.device = Device::fresh();
        self
    }

    // A step on the way to an example.
    pub(crate) fn after(mut self, step: Step) -> Self {
        self.device = self.device.step(step).device;
        self
    }

    // Prints the line of a comparison, and counts it.
    fn compared(
        mut self,
        name: &str,
        expected: &impl Display,
        got: &impl Display,
        passed: bool,
    ) -> io::Result<Self> {
        if passed {
            self.passed = self.passed.wrapping_add(1);
            println!(self.rt; "{name}: {expected}: ok")?;
        } else {
            self.failed = self.failed.wrapping_add(1);
            println!(self.rt; "{name}: {expected}: FAILED, got {got}")?;
        }
        Ok(self)
    }

    fn equal<T: Copy + PartialEq + Display>(
        self,
        name: &str,
        expected: T,
        got: T,
    ) -> io::Result<Self> {
        let passed = expected == got;
        self.compared(name, &expected, &got, passed)
    }

    // A step: what it does, and the lines after it.
    fn check(mut self, name: &str, step: Step, what: What, lines: u64) -> io::Result<Self> {
        let before = self.device;
        let Stepped { answer, device } = before.step(step);
        self.device = device;
        let got = Got::new(before, answer, device);
        let expected = Expected { what, lines };
        self.compared(name, &expected, &got, got.meets(expected))
    }

    // In these four all lines are low after the step.
    pub(crate) fn refuses(self, name: &str, step: Step, refusal: Refusal) -> io::Result<Self> {
        self.check(name, step, What::Outcome(Err(refusal)), 0)
    }

    pub(crate) fn reads(self, name: &str, step: Step, value: u64) -> io::Result<Self> {
        self.check(name, step, What::Outcome(Ok(value)), 0)
    }

    pub(crate) fn accepts(self, name: &str, step: Step) -> io::Result<Self> {
        self.check(name, step, What::Accepted, 0)
    }

    pub(crate) fn keeps_reads(self, name: &str, step: Step) -> io::Result<Self> {
        self.check(name, step, What::SameReads, 0)
    }

    pub(crate) fn raises(self, name: &str, step: Step, lines: u64) -> io::Result<Self> {
        self.check(name, step, What::Accepted, lines)
    }

    // The same of a bus access and of a bridge register.
    pub(crate) fn refuses_read(
        self,
        name: &str,
        address: u64,
        width: u64,
        refusal: Refusal,
    ) -> io::Result<Self> {
        self.refuses(name, bus_read(address, width), refusal)
    }

    pub(crate) fn refuses_write(
        self,
        name: &str,
        address: u64,
        width: u64,
        value: u64,
        refusal: Refusal,
    ) -> io::Result<Self> {
        self.refuses(name, bus_write(address, width, value), refusal)
    }

    pub(crate) fn writes(self, name: &str, register: Register, value: u64) -> io::Result<Self> {
        self.accepts(name, bridge_write(register, value))
    }

    pub(crate) fn shows(self, name: &str, register: Register, value: u64) -> io::Result<Self> {
        self.reads(name, bridge_read(register), value)
    }

    // The bits that a step moved.
    pub(crate) fn moves(mut self, name: &str, step: Step, moved: u64) -> io::Result<Self> {
        let Stepped { answer, device } = self.device.step(step);
        self.device = device;
        self.equal(name, Moved(moved), Moved(answer.moved))
    }

    // Whether two writes end in the same cells in both orders.
    pub(crate) fn orders(self, name: &str, a: Step, b: Step, orders: Orders) -> io::Result<Self> {
        let both = |first: Step, second: Step| self.device.step(first).device.step(second).device;
        let got = if same_cells(both(a, b), both(b, a)) {
            Orders::Agree
        } else {
            Orders::Differ
        };
        self.equal(name, orders, got)
    }

    // The cell in which two writes clash, and the bits.
    pub(crate) fn clashes(self, name: &str, a: Step, b: Step, clash: Found) -> io::Result<Self> {
        let got = Found::from(clashes::find_clash(self.device.second_open, a, b));
        self.equal(name, clash, got)
    }

    pub(crate) fn show_totals(self) -> io::Result<()> {
        println!(self.rt; "{} passed, {} failed", self.passed, self.failed)
    }
}
