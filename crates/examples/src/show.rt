// What the program prints of an outcome, of lines, of the bits that moved and of two orders.
use answers::Outcome;
use std::fmt;
use std::fmt::{Display, Formatter};

// Read data, or a refusal by its number.
#[derive(Clone, Copy)]
pub(crate) struct Shown(pub(crate) Outcome);

impl Display for Shown {
    fn fmt<W: fmt::Write>(&self, f: &mut Formatter<W>) -> fmt::Result {
        match self.0 {
            Ok(value) => write!(f, "value {value:#x}"),
            Err(refusal) => write!(f, "refused {}", u64::from(refusal)),
        }
    }
}

// The twelve lines, the IPI line of core 0 first.
#[derive(Clone, Copy)]
pub(crate) struct Lines(pub(crate) u64);

impl Display for Lines {
    fn fmt<W: fmt::Write>(&self, f: &mut Formatter<W>) -> fmt::Result {
        write!(f, ", lines {:012b}", self.0.reverse_bits() >> 52)
    }
}

// The bits that a step moved.
#[derive(Clone, Copy, PartialEq, Eq)]
pub(crate) struct Moved(pub(crate) u64);

impl Display for Moved {
    fn fmt<W: fmt::Write>(&self, f: &mut Formatter<W>) -> fmt::Result {
        write!(f, "moved {:#x}", self.0)
    }
}

// Whether both orders of a pair of writes end in the same cells.
#[derive(Clone, Copy, PartialEq, Eq)]
pub(crate) enum Orders {
    Agree,
    Differ,
}

impl Display for Orders {
    fn fmt<W: fmt::Write>(&self, f: &mut Formatter<W>) -> fmt::Result {
        f.write_str(match self {
            Orders::Agree => "the orders agree",
            Orders::Differ => "the orders differ",
        })
    }
}
