// Section 8.2: the registers of the node's I/O interrupts by offset, and what a write to each does.
#![tactic(auto)]

ghost use Rattle.std.specs.Prelude.{◌≡◌};
ghost use Rattle.node_registers.specs.Table.{entry_at, per_core_of};
ghost use Rattle.node_registers.specs.Effect.{written_of};

use access::{Rights, Widths};

// The registers of tables 8-5 and 8-7, in the manual's order: the status of a core and the route of a source by its number.
#[derive(Clone, Copy, PartialEq, Eq)]
pub enum Register {
    Intisr,
    Inten,
    Intenset,
    Intenclr,
    Intedge,
    CoreIntisr(u64),
    Entry(u64),
}

// A register that an offset names, and how it may be accessed.
pub type Entry = access::Entry<Register>;

// A cell that a plain write reaches.
#[derive(Clone, Copy)]
pub enum Cell {
    Inten,
    Entry(u64),
}

// A plain write.
pub type Effect = access::Effect<Cell>;

// A change that is not plain: bits of the edge choices take values, or none.
// No Option: an `Option<(u64, u64)>` would not say whose bits these are, and the bridge's Change, its sister in `tree`, has five cases.
#[derive(Clone, Copy)]
pub enum Change {
    Edge { mask: u64, bits: u64 },
    Nothing,
}

// What an accepted write does.
pub type Written = access::Written<Cell, Change>;

// The register that starts at an offset.
#[tactic(auto, using(crate::proofs::Ranges::nothing, crate::proofs::Ranges::behind, crate::proofs::Ranges::routes), unfolding(crate::specs::Table::entry_at, crate::specs::Table::table))]
pub fn entry_at(offset: u64) -> Option<Entry>
    ensures { result ≡ entry_at offset }
{
    let (register, rights, widths) = match offset {
        0x1400..=0x141f => (Register::Entry(offset - 0x1400), Rights::Both, Widths::One),
        0x1420 => (Register::Intisr, Rights::Read, Widths::Four),
        0x1424 => (Register::Inten, Rights::Read, Widths::Four),
        0x1428 => (Register::Intenset, Rights::Both, Widths::Four),
        0x142c => (Register::Intenclr, Rights::Both, Widths::Four),
        0x1434 => (Register::Intedge, Rights::Both, Widths::Four),
        0x1440 => (Register::CoreIntisr(0), Rights::Read, Widths::Four),
        0x1448 => (Register::CoreIntisr(1), Rights::Read, Widths::Four),
        _ => return None,
    };
    Some(Entry::new(register, rights, widths))
}

// The private window has the status of the core itself too, at 0x1010.
// Always Some: `per_core_of` is a row of the tables of windows, whose rows are Options.
pub fn per_core(core: u64) -> Option<Entry>
    ensures { result ≡ per_core_of core }
{
    Some(Entry::new(Register::CoreIntisr(core), Rights::Read, Widths::Four))
}

// What a write to a register does. No write to a status register or to Inten is accepted.
#[tactic(auto, unfolding(crate::specs::Effect::written_of))]
pub fn write(register: Register, value: u64) -> Written
    ensures { result ≡ written_of register value }
{
    match register {
        Register::Intenset => Written::Plain(Effect::new(Cell::Inten, value, value)),
        Register::Intenclr => Written::Plain(Effect::new(Cell::Inten, value, 0)),
        Register::Intedge => Written::Changed(Change::Edge {
            mask: 0xffff_ffff,
            bits: value,
        }),
        Register::Entry(source) => Written::Plain(Effect::new(Cell::Entry(source), 0xf3, value)),
        Register::Intisr | Register::Inten | Register::CoreIntisr(_) => {
            Written::Changed(Change::Nothing)
        }
    }
}
