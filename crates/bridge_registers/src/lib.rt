// Section 8.1: the registers of the bridge's interrupt controller by name, and what a write to each does.
#![tactic(auto)]

ghost use Rattle.std.specs.Prelude.{◌≡◌};
ghost use Rattle.bridge_registers.specs.Registers.{distributed, row, row_of, sized, written_of};

use access::Rights;

// The registers of table 8-2, in the order of 01.
#[derive(Clone, Copy, PartialEq, Eq)]
pub enum Register {
    IntMask,
    MsiEn,
    IntEdge,
    SoftInt,
    AutoCtrl0,
    AutoCtrl1,
    IntClr,
    IntIsrChip0,
    IntIsrChip1,
    IntIrr,
    RouteEntry(u64),
}

// The two words of the sources in service, INTISR_CHIP0 and INTISR_CHIP1, of which a search asks for one.
#[derive(Clone, Copy, PartialEq, Eq)]
pub enum Chip {
    Chip0,
    Chip1,
}

// What a written value may be.
#[derive(Clone, Copy, PartialEq, Eq)]
pub enum Holds {
    Word,
    Zero,
    Byte,
}

// A register's row: its source number (ROUTE_ENTRY alone has one), its rights, and what a write may hold.
#[derive(Clone, Copy)]
pub struct Row {
    pub source: Option<u64>,
    pub rights: Rights,
    pub holds: Holds,
}

// A cell that a plain write reaches.
#[derive(Clone, Copy)]
pub enum Cell {
    Mask,
    Msi,
    Route(u64),
}

// A plain write.
pub type Effect = access::Effect<Cell>;

// A change that is not plain: bits of the modes, of the soft bits, of the turn modes (AUTO_CTRL0) or of the latches take values, or none.
// Nothing is a case: an Option around the other four would stand within Written::Changed alone.
#[derive(Clone, Copy)]
pub enum Change {
    Edge { mask: u64, bits: u64 },
    Soft { mask: u64, bits: u64 },
    Auto { mask: u64, bits: u64 },
    Latch { mask: u64, bits: u64 },
    Nothing,
}

// What an accepted write does.
pub type Written = access::Written<Cell, Change>;

// The row of a register that is no ROUTE_ENTRY.
fn row_with(rights: Rights, holds: Holds) -> Row
    ensures { result ≡ row None rights holds }
{
    Row {
        source: None,
        rights,
        holds,
    }
}

// The row of a register.
#[tactic(auto, unfolding(crate::specs::Registers::row_of))]
pub fn row_of(register: Register) -> Row
    ensures { result ≡ row_of register }
{
    match register {
        Register::IntMask
        | Register::MsiEn
        | Register::IntEdge
        | Register::SoftInt
        | Register::AutoCtrl0 => row_with(Rights::Both, Holds::Word),
        Register::AutoCtrl1 => row_with(Rights::Both, Holds::Zero),
        Register::IntClr => row_with(Rights::Write, Holds::Word),
        Register::IntIsrChip0 | Register::IntIsrChip1 | Register::IntIrr => {
            row_with(Rights::Read, Holds::Word)
        }
        Register::RouteEntry(source) => Row {
            source: Some(source),
            rights: Rights::Both,
            holds: Holds::Byte,
        },
    }
}

// A route is a byte; every other register is a word, as every u64 is.
#[tactic(auto, unfolding(crate::specs::Registers::sized))]
pub fn fits(holds: Holds, value: u64) -> bool
    ensures { result ≡ sized holds value }
{
    match holds {
        Holds::Word | Holds::Zero => true,
        Holds::Byte => value <= 255,
    }
}

// AUTO_CTRL1 holds 0 alone.
#[tactic(auto, unfolding(crate::specs::Registers::distributed))]
pub fn held(holds: Holds, value: u64) -> bool
    ensures { result ≡ distributed holds value }
{
    match holds {
        Holds::Zero => value == 0,
        Holds::Word | Holds::Byte => true,
    }
}

// What a write to a register does. No write to INTISR_CHIP0, INTISR_CHIP1 or INTIRR is accepted.
#[tactic(auto, unfolding(crate::specs::Registers::written_of))]
pub fn write(register: Register, value: u64) -> Written
    ensures { result ≡ written_of register value }
{
    match register {
        Register::IntMask => Written::Plain(Effect::new(Cell::Mask, u64::MAX, value)),
        Register::MsiEn => Written::Plain(Effect::new(Cell::Msi, u64::MAX, value)),
        Register::IntEdge => Written::Changed(Change::Edge {
            mask: u64::MAX,
            bits: value,
        }),
        Register::SoftInt => Written::Changed(Change::Soft {
            mask: u64::MAX,
            bits: value,
        }),
        Register::AutoCtrl0 => Written::Changed(Change::Auto {
            mask: u64::MAX,
            bits: value,
        }),
        Register::IntClr => Written::Changed(Change::Latch {
            mask: value,
            bits: 0,
        }),
        Register::RouteEntry(source) => Written::Plain(Effect::new(Cell::Route(source), 3, value)),
        Register::AutoCtrl1 | Register::IntIsrChip0 | Register::IntIsrChip1 | Register::IntIrr =>
            Written::Changed(Change::Nothing),
    }
}
