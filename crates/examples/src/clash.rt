// Which clash of two writes an example names.
use clashes::Clash;
use reorder::Cell;
use std::fmt;
use std::fmt::{Display, Formatter};

// Core 0's Status, or another cell.
#[derive(Clone, Copy, PartialEq, Eq)]
pub(crate) enum Place {
    Status,
    Other,
}

// The cell and the bits, or none where the writes are free to change places.
#[derive(Clone, Copy, PartialEq, Eq)]
pub(crate) struct Found(pub(crate) Option<(Place, u64)>);

fn place_of(cell: Cell) -> Place {
    if matches!(cell, Cell::Core0(ipi_registers::Cell::Status)) {
        Place::Status
    } else {
        Place::Other
    }
}

impl From<Option<Clash>> for Found {
    fn from(clash: Option<Clash>) -> Found {
        Found(clash.map(|Clash { cell, bits }| (place_of(cell), bits)))
    }
}

impl Display for Found {
    fn fmt<W: fmt::Write>(&self, f: &mut Formatter<W>) -> fmt::Result {
        match self.0 {
            None => f.write_str("free"),
            Some((Place::Status, bits)) => write!(f, "clash in core0.Status {bits:#x}"),
            Some((Place::Other, bits)) => write!(f, "clash in another cell {bits:#x}"),
        }
    }
}
