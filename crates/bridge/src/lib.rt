// Section 8.1: the 64 sources of the bridge: drive, request, in service, which of them it is, and the two outputs.
#![tactic(auto)]

ghost use Rattle.std.specs.Prelude.{◌≡◌, get_or};
ghost use Rattle.bits.specs.Bits.{bit, word};
ghost use Rattle.bridge_registers.specs.Registers.{in_service_at};
ghost use Rattle.bridge.specs.Sources.{drive_word, lines_of, pending_at, read_of, request_word, which_of};
ghost use Rattle.bridge.specs.Changes.{applied_of, before_of, changed_of, input_of, levelled_of, moved_of, settled_of};
ghost use Rattle.bridge.specs.Moved.{change_moved, write_moved};
ghost use Rattle.bridge.specs.Private.{route_moved, turns_of};

use access::Refusal;
use answers::Outcome;
use bits::After;
use bridge_registers::{Cell, Change, Chip, Effect, Register};
use turns::Turns;

// Bit i of each word and byte i of the routes belong to source i.
#[derive(Clone, Copy)]
pub struct Bridge {
    pub mask: u64,
    pub msi: u64,
    pub edge: u64,
    pub latch: u64,
    pub soft: u64,
    pub level: u64,
    pub auto: u64,
    pub turn: u64,
    pub routes: [u8; 64],
}

// What ROUTE_ENTRY reads as: the two bits that are held.
fn route_read(routes: [u8; 64], source: u64) -> u64
    ensures { result ≡ word 2 (bit (get_or routes source 0)) }
{
    u64::from(lanes::byte_at(&routes, source) % 4)
}

// The routes after the bits in mask of one of them took values, and the bits of that one that moved. Two bits of it are held; of a route that is
// not there, none moves.
// Not one function with routes::written: here the bits that are not held are dropped, there they stay; what is common is merge and put_at.
fn route_written(mut routes: [u8; 64], source: u64, mask: u64, value: u64) -> After<[u8; 64]>
    ensures { result ≡ route_moved routes source mask value }
{
    let new = bits::merge(lanes::byte_at(&routes, source), mask, value);
    lanes::put_at(&mut routes, source, new.state % 4);
    After {
        state: routes,
        moved: bits::choose(source < 64, new.moved % 4, 0),
    }
}

// What settling needs of the bridge before a change: the modes, the drives and the requests.
#[derive(Clone, Copy)]
pub struct Before {
    pub edge: u64,
    pub drive: u64,
    pub request: u64,
}

impl Bridge {
    // The input or the soft bit.
    fn drive(self) -> u64
        ensures { result ≡ drive_word self }
    {
        self.level | self.soft
    }

    // INTIRR: the latch in edge mode, the drive in level mode.
    fn requests(self) -> u64
        ensures { result ≡ request_word self }
    {
        bits::select(self.edge, self.latch, self.drive())
    }

    // The requests that are neither masked nor sent as messages.
    fn pending(self) -> u64
        ensures { result ≡ word 64 (pending_at self) }
    {
        self.requests() & (!self.mask & !self.msi)
    }

    // What decides where sources show.
    fn turns(self) -> Turns
        ensures { result ≡ turns_of self }
    {
        let routes = self.routes;
        Turns {
            routes,
            auto: self.auto,
            turn: self.turn,
        }
    }

    // INTISR_CHIP0 or INTISR_CHIP1.
    fn in_service(self, chip: Chip) -> u64
        ensures { result ≡ read_of self (in_service_at chip) }
    {
        let pending = self.pending();
        match chip {
            Chip::Chip0 => self.turns().shown_on_0(pending),
            Chip::Chip1 => self.turns().shown_on_1(pending),
        }
    }

    // The two outputs, before the gate, output k as bit k: some source is in service for it.
    pub fn lines(self) -> u8
        ensures { result ≡ lines_of self }
    {
        self.turns().outputs(self.pending())
    }

    // What a register reads as. No read of INTCLR is accepted.
    #[tactic(auto, unfolding(crate::specs::Sources::read_of))]
    pub fn read(self, register: Register) -> u64
        ensures { result ≡ read_of self register }
    {
        match register {
            Register::IntMask => self.mask,
            Register::MsiEn => self.msi,
            Register::IntEdge => self.edge,
            Register::SoftInt => self.soft,
            Register::AutoCtrl0 => self.auto,
            Register::AutoCtrl1 | Register::IntClr => 0,
            Register::IntIsrChip0 => self.in_service(Chip::Chip0),
            Register::IntIsrChip1 => self.in_service(Chip::Chip1),
            Register::IntIrr => self.requests(),
            Register::RouteEntry(source) => route_read(self.routes, source),
        }
    }

    // The lowest-numbered source in INTISR_CHIP0 or INTISR_CHIP1; refused where there is none.
    #[tactic(auto, using(crate::proofs::Which::found_first), unfolding(crate::specs::Sources::which_of))]
    pub fn which(self, chip: Chip) -> Outcome
        ensures { result ≡ which_of self chip }
    {
        search::lowest(self.in_service(chip)).ok_or(Refusal::NoneInService)
    }

    // The bridge after an effect of a plain write, and the bits of the cell that then differ.
    pub fn applied(mut self, effect: Effect) -> After<Bridge>
        ensures { result ≡ write_moved self (applied_of self effect) effect.cell }
    {
        let Effect { cell, mask, bits } = effect;
        let moved = match cell {
            Cell::Mask => {
                let new = bits::merge(self.mask, mask, bits);
                self.mask = new.state;
                new.moved
            }
            Cell::Msi => {
                let new = bits::merge(self.msi, mask, bits);
                self.msi = new.state;
                new.moved
            }
            Cell::Route(i) => {
                let After { state, moved } = route_written(self.routes, i, mask, bits);
                self.routes = state;
                moved
            }
        };
        After { state: self, moved }
    }

    // What a change itself moves.
    fn moved(mut self, change: Change) -> After<Bridge>
        ensures { result ≡ change_moved self (moved_of self change) change }
    {
        let moved = match change {
            Change::Edge { mask, bits } => {
                let new = bits::merge(self.edge, mask, bits);
                self.edge = new.state;
                new.moved
            }
            Change::Soft { mask, bits } => {
                let new = bits::merge(self.soft, mask, bits);
                self.soft = new.state;
                new.moved
            }
            Change::Auto { mask, bits } => {
                let new = bits::merge(self.auto, mask, bits);
                self.auto = new.state;
                new.moved
            }
            Change::Latch { mask, bits } => {
                let new = bits::merge(self.latch, mask, bits);
                self.latch = new.state;
                new.moved
            }
            Change::Nothing => 0,
        };
        After { state: self, moved }
    }

    // What settling needs of the bridge before a change.
    fn before(self) -> Before
        ensures { result ≡ before_of self }
    {
        Before {
            edge: self.edge,
            drive: self.drive(),
            request: self.requests(),
        }
    }

    // What follows from a change: the edge-latch rule, from the modes and drives before it to those after it; then the turns, from the requests.
    #[tactic(auto, unfolding(crate::specs::Changes::settled_of, crate::specs::Changes::latched_of, crate::specs::Changes::turned_of))]
    fn settled(mut self, before: Before) -> Bridge
        ensures { result ≡ settled_of before self }
    {
        self.latch = bits::latched(
            before.edge,
            self.edge,
            before.drive,
            self.drive(),
            self.latch,
        );
        self.turn = self.turns().turned(before.request, self.requests());
        self
    }

    // The bridge after a change that is not plain, and the bits of the cell that then differ: what follows from the change moves none of them.
    pub fn changed(self, change: Change) -> After<Bridge>
        ensures { result ≡ change_moved self (changed_of self change) change }
    {
        let After { state, moved } = self.moved(change);
        After {
            state: state.settled(self.before()),
            moved,
        }
    }

    #[tactic(auto, unfolding(crate::specs::Changes::levelled_of))]
    fn levelled(mut self, source: u64, level: bool) -> Bridge
        ensures { result ≡ levelled_of self source level }
    {
        self.level = bits::put(self.level, source, level);
        self
    }

    // The bridge after an input change.
    #[tactic(auto, unfolding(crate::specs::Changes::input_of))]
    pub fn input(self, source: u64, level: bool) -> Bridge
        ensures { result ≡ input_of self source level }
    {
        self.levelled(source, level).settled(self.before())
    }
}
