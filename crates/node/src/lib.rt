// Section 8.2: the 32 sources of the node: drive, request, the status of a core, and the lines to the pins of both cores.
#![tactic(auto)]

ghost use Rattle.std.specs.Prelude.{◌≡◌};
ghost use Rattle.bits.specs.Bits.{word};
ghost use Rattle.node.specs.Sources.{drive_word, pending_at, pins_of, read_of, request_word, status_word};
ghost use Rattle.node.specs.Changes.{applied_of, before_of, disabled, levelled_of, moved_of, settled_of};
ghost use Rattle.node.specs.Moved.{change_moved, write_moved};

use bits::{After, Word};
use node_registers::{Cell, Change, Effect, Register};

// Bit i of each word and byte i of the routes belong to source i. Sources 0 and 1 have no input level: bits 0 and 1 of it show nowhere.
#[derive(Clone, Copy)]
pub struct Node {
    pub enable: u32,
    pub edge: u32,
    pub latch: u32,
    pub level: u32,
    pub routes: [u8; 32],
}

// What settling needs of the node before a step: the edge choices and the drives.
#[derive(Clone, Copy)]
pub struct Before {
    pub edge: u32,
    pub drive: u32,
}

// Intenclr: the latch goes with the enable.
fn latch_disabled(latch: u32, mask: u64, bits: u64) -> u32
    ensures { result ≡ disabled mask bits latch }
{
    bits::select(u32::low(mask & !bits), 0, latch)
}

impl Node {
    // Sources 0 and 1 are driven by the bridge's two lines, the others by their inputs.
    fn drive(self, lines: u8) -> u32
        ensures { result ≡ drive_word self lines }
    {
        bits::select(3, u32::from(lines), self.level)
    }

    // Intisr: the latch in edge mode, the drive in level mode.
    fn requests(self, lines: u8) -> u32
        ensures { result ≡ request_word self lines }
    {
        bits::select(self.edge, self.latch, self.drive(lines))
    }

    // The requests that are enabled.
    fn pending(self, lines: u8) -> u32
        ensures { result ≡ word 32 (pending_at self lines) }
    {
        self.requests(lines) & self.enable
    }

    // COREc_INTISR.
    fn status(self, lines: u8, core: u64) -> u32
        ensures { result ≡ status_word self lines core }
    {
        routes::routed(self.routes, self.pending(lines), core)
    }

    // The lines to the pins: core c and pin p as bit 4 * c + p.
    pub fn pins(self, lines: u8) -> u8
        ensures { result ≡ pins_of self lines }
    {
        routes::lines(self.routes, self.pending(lines))
    }

    // What a register reads as.
    #[tactic(auto, unfolding(crate::specs::Sources::read_of))]
    pub fn read(self, lines: u8, register: Register) -> u64
        ensures { result ≡ read_of self lines register }
    {
        match register {
            Register::Intisr => u64::from(self.requests(lines)),
            Register::Inten | Register::Intenset | Register::Intenclr => u64::from(self.enable),
            Register::Intedge => u64::from(self.edge),
            Register::CoreIntisr(core) => u64::from(self.status(lines, core)),
            Register::Entry(source) => routes::read(self.routes, source),
        }
    }

    // The node after an effect of a plain write, and the bits of the cell that then differ; the latches that go with the enables are not among them.
    pub fn applied(mut self, effect: Effect) -> After<Node>
        ensures { result ≡ write_moved self (applied_of self effect) effect.cell }
    {
        let Effect { cell, mask, bits } = effect;
        let moved = match cell {
            Cell::Inten => {
                let new = bits::merge(self.enable, mask, bits);
                self.enable = new.state;
                self.latch = latch_disabled(self.latch, mask, bits);
                new.moved
            }
            Cell::Entry(i) => {
                let After { state, moved } = routes::written(self.routes, i, mask, bits);
                self.routes = state;
                moved
            }
        };
        After { state: self, moved }
    }

    // What a change itself moves, and the bits of the cell that then differ.
    pub fn moved(mut self, change: Change) -> After<Node>
        ensures { result ≡ change_moved self (moved_of self change) change }
    {
        let moved = match change {
            Change::Edge { mask, bits } => {
                let new = bits::merge(self.edge, mask, bits);
                self.edge = new.state;
                new.moved
            }
            Change::Nothing => 0,
        };
        After { state: self, moved }
    }

    // What an input change itself moves.
    pub fn levelled(mut self, source: u64, level: bool) -> Node
        ensures { result ≡ levelled_of self source level }
    {
        self.level = u32::low(bits::put(u64::from(self.level), source, level));
        self
    }

    // What settling needs of the node before a step, where the bridge's lines are `lines`.
    pub fn before(self, lines: u8) -> Before
        ensures { result ≡ before_of self lines }
    {
        Before {
            edge: self.edge,
            drive: self.drive(lines),
        }
    }

    // What follows from a step, where the bridge's lines are `lines` after it: the edge-latch rule, from the choices and drives before it to those
    // after it.
    #[tactic(auto, unfolding(crate::specs::Changes::settled_of))]
    pub fn settled(mut self, before: Before, lines: u8) -> Node
        ensures { result ≡ settled_of before self lines }
    {
        self.latch = bits::latched(
            before.edge,
            self.edge,
            before.drive,
            self.drive(lines),
            self.latch,
        );
        self
    }
}
