// Whether two devices agree: in all that can be read, and in every cell.
use crate::kinds::{bridge_read, bus_read};
use bridge_registers::Register;
use device::Device;
use steps::Step;

// The registers of the bridge that can be read, but for the 64 routes.
const BRIDGE: [Register; 9] = [
    Register::IntMask,
    Register::MsiEn,
    Register::IntEdge,
    Register::SoftInt,
    Register::AutoCtrl0,
    Register::AutoCtrl1,
    Register::IntIsrChip0,
    Register::IntIsrChip1,
    Register::IntIrr,
];

// The addresses of eight bytes: the gate, and the mailboxes of both cores.
const EIGHT_BYTES: [u64; 9] = [
    0x1fe00420, 0x1fe01020, 0x1fe01028, 0x1fe01030, 0x1fe01038, 0x1fe01120, 0x1fe01128, 0x1fe01130,
    0x1fe01138,
];

// Those of four: Status and Enable of both cores, and of the node Intisr, Inten, Intedge and the status of each core.
const FOUR_BYTES: [u64; 9] = [
    0x1fe01000, 0x1fe01100, 0x1fe01004, 0x1fe01104, 0x1fe01420, 0x1fe01424, 0x1fe01434, 0x1fe01440,
    0x1fe01448,
];

// Every read gives the same of both.
pub(crate) fn same_reads(a: Device, b: Device) -> bool {
    let same = |step: Step| a.step(step).answer.outcome == b.step(step).answer.outcome;
    (0..64).all(|source| same(bridge_read(Register::RouteEntry(source))))
        && BRIDGE.iter().all(|&register| same(bridge_read(register)))
        && EIGHT_BYTES
            .iter()
            .all(|&address| same(bus_read(address, 8)))
        && FOUR_BYTES.iter().all(|&address| same(bus_read(address, 4)))
        && (0x1fe01400..0x1fe01420).all(|entry| same(bus_read(entry, 1)))
}

// The cells that no read shows: the latches and the input levels of the bridge and of the node, the turns and the window switch.
#[derive(Clone, Copy, PartialEq, Eq)]
struct Hidden {
    bridge_latch: u64,
    bridge_level: u64,
    turn: u64,
    node_latch: u32,
    node_level: u32,
    second_open: bool,
}

impl Hidden {
    fn of(d: Device) -> Hidden {
        Hidden {
            bridge_latch: d.tree.bridge.latch,
            bridge_level: d.tree.bridge.level,
            turn: d.tree.bridge.turn,
            node_latch: d.tree.node.latch,
            node_level: d.tree.node.level,
            second_open: d.second_open,
        }
    }
}

// Every cell is the same in both.
pub(crate) fn same_cells(a: Device, b: Device) -> bool {
    Hidden::of(a) == Hidden::of(b) && same_reads(a, b)
}
