// The names of the cells that writes clash on.
use crate::number::decimal;
use reorder::Cell;
use std::fmt;

#[derive(Clone, Copy)]
pub(crate) struct CellName(pub(crate) Cell);

#[derive(Clone, Copy)]
struct CoreCell(ipi_registers::Cell);

#[derive(Clone, Copy)]
struct BridgeCell(bridge_registers::Cell);

#[derive(Clone, Copy)]
struct NodeCell(node_registers::Cell);

impl fmt::Display for CellName {
    fn fmt<W: fmt::Write>(&self, f: &mut fmt::Formatter<W>) -> fmt::Result {
        match self.0 {
            Cell::Core0(cell) => write!(f, "core0.{}", CoreCell(cell)),
            Cell::Core1(cell) => write!(f, "core1.{}", CoreCell(cell)),
            Cell::Bridge(cell) => write!(f, "{}", BridgeCell(cell)),
            Cell::Gate => write!(f, "gate"),
            Cell::Node(cell) => write!(f, "{}", NodeCell(cell)),
        }
    }
}

impl fmt::Display for CoreCell {
    fn fmt<W: fmt::Write>(&self, f: &mut fmt::Formatter<W>) -> fmt::Result {
        match self.0 {
            ipi_registers::Cell::Status => write!(f, "Status"),
            ipi_registers::Cell::Enable => write!(f, "Enable"),
            ipi_registers::Cell::MailBox(i) => write!(f, "MailBox{}", decimal(i)),
        }
    }
}

impl fmt::Display for BridgeCell {
    fn fmt<W: fmt::Write>(&self, f: &mut fmt::Formatter<W>) -> fmt::Result {
        match self.0 {
            bridge_registers::Cell::Mask => write!(f, "INT_MASK"),
            bridge_registers::Cell::Msi => write!(f, "MSI_EN"),
            bridge_registers::Cell::Route(i) => write!(f, "ROUTE_ENTRY {}", decimal(i)),
        }
    }
}

impl fmt::Display for NodeCell {
    fn fmt<W: fmt::Write>(&self, f: &mut fmt::Formatter<W>) -> fmt::Result {
        match self.0 {
            node_registers::Cell::Inten => write!(f, "Inten"),
            node_registers::Cell::Entry(i) => write!(f, "Entry {}", decimal(i)),
        }
    }
}
