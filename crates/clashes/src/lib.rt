// Where two writes of the order rule clash.
#![tactic(auto)]

ghost use Rattle.std.specs.Prelude.{◌≡◌, cond, ◌&&◌, eqb, ltb};
ghost use Rattle.std.specs.Bool.{xor};
ghost use Rattle.bits.specs.Bits.{bit, word};
ghost use Rattle.reorder.specs.Cells.{bridge_row, core_row, node_row};
ghost use Rattle.clashes.specs.Clash.{clash_bits, clash_in, clash_of};
ghost use Rattle.clashes.specs.Private.{place_of, spot_in, spot_of};

use reorder::{Cell, Effect, Given};
use steps::Step;

// The cell and the bits to which two writes give opposite values.
#[derive(Clone, Copy)]
pub struct Clash {
    pub cell: Cell,
    pub bits: u64,
}

// ---- where a cell stands and its width, a line for each as in crates/reorder/specs/Cells.antt

// By numbers and no `==` of cells: the table that the order rule is proved over compares by them (`row_of` in crates/reorder/specs/Cells.antt).
#[derive(Clone, Copy, PartialEq, Eq)]
struct Place {
    block: u64,
    number: u64,
    index: u64,
}

#[derive(Clone, Copy)]
struct Spot {
    place: Place,
    width: u64,
}

// A cell of its own.
fn one(block: u64, number: u64, width: u64) -> Spot
    ensures { result ≡ record { place = record { block = block; number = number; index = 0 }; width = width } }
{
    one_of(block, number, 0, 1, width)
}

// One of several cells: beyond their count there are no bits.
fn one_of(block: u64, number: u64, index: u64, count: u64, bits: u64) -> Spot
    ensures { result ≡ record { place = record { block = block; number = number; index = index }; width = cond (ltb index count) bits 0 } }
{
    let place = Place {
        block,
        number,
        index,
    };
    let width = if index < count { bits } else { 0 };
    Spot { place, width }
}

fn core_spot(block: u64, cell: ipi_registers::Cell) -> Spot
    ensures { result ≡ spot_in block (core_row cell) }
{
    match cell {
        ipi_registers::Cell::Status => one(block, 0, 32),
        ipi_registers::Cell::Enable => one(block, 1, 32),
        ipi_registers::Cell::MailBox(i) => one_of(block, 2, i, 4, 64),
    }
}

fn bridge_spot(block: u64, cell: bridge_registers::Cell) -> Spot
    ensures { result ≡ spot_in block (bridge_row cell) }
{
    match cell {
        bridge_registers::Cell::Mask => one(block, 0, 64),
        bridge_registers::Cell::Msi => one(block, 1, 64),
        bridge_registers::Cell::Route(i) => one_of(block, 2, i, 64, 2),
    }
}

fn node_spot(block: u64, cell: node_registers::Cell) -> Spot
    ensures { result ≡ spot_in block (node_row cell) }
{
    match cell {
        node_registers::Cell::Inten => one(block, 0, 32),
        node_registers::Cell::Entry(i) => one_of(block, 1, i, 32, 8),
    }
}

fn spot_of(cell: Cell) -> Spot
    ensures { result ≡ spot_of cell }
{
    match cell {
        Cell::Core0(c) => core_spot(0, c),
        Cell::Core1(c) => core_spot(1, c),
        Cell::Bridge(c) => bridge_spot(2, c),
        Cell::Gate => one(3, 0, 1),
        Cell::Node(c) => node_spot(4, c),
    }
}

// ---- the bits in which two writes clash

// The bits below a width.
fn bits_below(width: u64) -> u64
    ensures { result ≡ word 64 (λ i. ltb i width) }
{
    if width < 64 {
        (1 << width) - 1
    } else {
        u64::MAX
    }
}

// The bits of `low` that are in both masks with opposite values.
fn opposite(e: Effect, f: Effect, low: u64) -> u64
    ensures { result ≡ word 64 (λ i. bit e.mask i && bit f.mask i && xor (bit e.bits i) (bit f.bits i) && bit low i) }
{
    e.mask & f.mask & (e.bits ^ f.bits) & low
}

// The bits of the first cell in which two effects clash, if both are on it.
fn clash_bits(e: Effect, f: Effect) -> u64
    ensures { result ≡ clash_bits (Given.Bits e) (Given.Bits f) }
{
    let spot = spot_of(e.cell);
    if spot.place == spot_of(f.cell).place {
        opposite(e, f, bits_below(spot.width))
    } else {
        0
    }
}

#[tactic(auto, unfolding(crate::specs::Clash::clash_bits, order::specs::Cells::clash))]
fn clash_with(e: Effect, given: Given) -> Option<Clash>
    ensures { result ≡ clash_in (Given.Bits e) (clash_bits (Given.Bits e) given) }
{
    match given {
        Given::NotListed | Given::Nothing => None,
        Given::Bits(f) => {
            let bits = clash_bits(e, f);
            if bits == 0 {
                return None;
            }
            Some(Clash { cell: e.cell, bits })
        }
    }
}

// Where two writes clash: the cell, and the bits to which they give opposite values.
#[tactic(auto, unfolding(crate::specs::Clash::clash_of))]
pub fn find_clash(second_open: bool, a: Step, b: Step) -> Option<Clash>
    ensures { result ≡ clash_of second_open a b }
{
    match reorder::bits_given(second_open, a) {
        Given::NotListed | Given::Nothing => None,
        Given::Bits(e) => clash_with(e, reorder::bits_given(second_open, b)),
    }
}
