// The mixes of steps, as data: crates/speed and bench/baseline.c run the same rows. bench/run makes C of this file, so the numbers
// are plain: no underscores, no names, and a row no struct. A mix is 64 rows, in two halves: a table of twice the rows takes the check about
// three times as long.
//
// A step draws x from the 64-bit xorshift 13, 7, 17, which starts at SEED, and takes the row x >> 58 of its mix. The first step opens the
// second window, which is closed at the start: SEED is such that it takes row 59, in each mix a window switch, and bench/baseline.c checks it.
// A row is
//
//     [kind, unit, place, spread, width, and, or]
//
//     kind   of the step, by its number (crates/numbered/specs/Numbered.antt)
//     unit   the core of a private access; the name of a bridge access, by its number there
//     place  the address, the offset, the source, or the line that is searched, is place | (x >> 32 & spread)
//     width  of a bus or private access
//     value  ((x ^ x << 32) & and) | or: what is written, and the level of an input. A window switch (kind 7) opens where it is not 0. A reset
//            (kind 8) is one where it is 0, and opens the window elsewhere, so that resets are rare and the window is soon open again
//
// 4 rows of 64 are refused; in MESSAGES 3 are, and the second window, closed an eighth of the time, makes up the fourth. A search finds no
// source, and is refused, in a third of the cases in SPARSE and hardly ever in DENSE.
// Counted over ten million steps (gcc -DCOUNTS): the gate is open for 0.87 of the steps of SPARSE and DENSE; pending are 2.2 sources in
// SPARSE and 32.9 in DENSE, of which a walk that ends once both lines are high, sources in fixed mode first, looks at 1.5 and 9. In TREE the
// gate is open as long, 1.9 sources of the bridge are pending, 6.3 of the node are enabled and 2.8 of those request; each pin is high for half
// of the steps. In these three half of the sources are in turn mode; a turn bit moves in 3, 1.6 and 1.8 of a hundred steps.
pub(crate) const SEED: u64 = 0xbfd0273b10a6d4af;

pub(crate) type Row = [u64; 7];

#[derive(Clone, Copy)]
pub(crate) struct Mix {
    pub(crate) name: &'static str,
    pub(crate) first: &'static [Row; 32],
    pub(crate) last: &'static [Row; 32],
}

pub(crate) const MIXES: [Mix; 4] = [
    Mix {
        name: "messages",
        first: &MESSAGES_FIRST,
        last: &MESSAGES_LAST,
    },
    Mix {
        name: "sparse",
        first: &BRIDGE_FIRST,
        last: &SPARSE_LAST,
    },
    Mix {
        name: "dense",
        first: &BRIDGE_FIRST,
        last: &DENSE_LAST,
    },
    Mix {
        name: "tree",
        first: &BRIDGE_FIRST,
        last: &TREE_LAST,
    },
];

// Messages only: every message register of both cores by every path and width, both sends with every byte mask.
pub(crate) const MESSAGES_FIRST: [Row; 32] = [
    // Bus, first window.
    [0, 0, 0x1fe01000, 0x104, 4, 0, 0], // read Status, Enable
    [1, 0, 0x1fe01004, 0x100, 4, 0xffffffff, 0], // write Enable
    [1, 0, 0x1fe01008, 0x104, 4, 0xffffffff, 0], // write Set, Clear
    [0, 0, 0x1fe01020, 0x118, 8, 0, 0], // read a mailbox
    [1, 0, 0x1fe01020, 0x118, 8, 0xffffffffffffffff, 0], // write a mailbox
    [0, 0, 0x1fe01020, 0x11c, 4, 0, 0], // read a half
    [1, 0, 0x1fe01020, 0x11c, 4, 0xffffffff, 0], // write a half
    // Bus, second window.
    [0, 0, 0x3ff01000, 0x104, 4, 0, 0], // read Status, Enable
    [1, 0, 0x3ff01004, 0x100, 4, 0x80000001, 0], // write Enable
    [1, 0, 0x3ff01008, 0x104, 4, 0xffffffff, 0], // write Set, Clear
    [0, 0, 0x3ff01020, 0x118, 8, 0, 0], // read a mailbox
    [1, 0, 0x3ff01020, 0x118, 8, 0xffffffffffffffff, 0], // write a mailbox
    [0, 0, 0x3ff01020, 0x11c, 4, 0, 0], // read a half
    [1, 0, 0x3ff01020, 0x11c, 4, 0xffffffff, 0], // write a half
    // Core 0.
    [2, 0, 0x1000, 4, 4, 0, 0], // read Status, Enable
    [3, 0, 0x1004, 0, 4, 0x11, 0], // write Enable
    [3, 0, 0x1008, 4, 4, 0xffffffff, 0], // write Set, Clear
    [2, 0, 0x1020, 0x18, 8, 0, 0], // read a mailbox
    [3, 0, 0x1020, 0x18, 8, 0xffffffffffffffff, 0], // write a mailbox
    [2, 0, 0x1020, 0x1c, 4, 0, 0], // read a half
    [3, 0, 0x1020, 0x1c, 4, 0xffffffff, 0], // write a half
    [3, 0, 0x1040, 0, 4, 0xfc01ffff, 0], // IPI_Send
    [3, 0, 0x1048, 0, 8, 0xfffffffffc01ffff, 0], // Mail_Send
    [3, 0, 0x1040, 0, 4, 0xfc01ffff, 0], // IPI_Send
    [3, 0, 0x1048, 0, 8, 0xfffffffffc01ffff, 0], // Mail_Send
    // Core 1.
    [2, 1, 0x1000, 4, 4, 0, 0], // read Status, Enable
    [3, 1, 0x1004, 0, 4, 3, 0], // write Enable
    [3, 1, 0x1008, 4, 4, 0xffffffff, 0], // write Set, Clear
    [2, 1, 0x1020, 0x18, 8, 0, 0], // read a mailbox
    [3, 1, 0x1020, 0x18, 8, 0xffffffffffffffff, 0], // write a mailbox
    [2, 1, 0x1020, 0x1c, 4, 0, 0], // read a half
    [3, 1, 0x1020, 0x1c, 4, 0xffffffff, 0], // write a half
];

pub(crate) const MESSAGES_LAST: [Row; 32] = [
    [3, 1, 0x1040, 0, 4, 0xfc01ffff, 0], // IPI_Send
    [3, 1, 0x1048, 0, 8, 0xfffffffffc01ffff, 0], // Mail_Send
    [3, 1, 0x1040, 0, 4, 0xfc01ffff, 0], // IPI_Send
    [3, 1, 0x1048, 0, 8, 0xfffffffffc01ffff, 0], // Mail_Send
    // Core 0 again.
    [2, 0, 0x1000, 4, 4, 0, 0], // read Status, Enable
    [3, 0, 0x1004, 0, 4, 0x10000, 0], // write Enable
    [3, 0, 0x1008, 4, 4, 0xffffffff, 0], // write Set, Clear
    [2, 0, 0x1020, 0x18, 8, 0, 0], // read a mailbox
    [3, 0, 0x1020, 0x18, 8, 0xffffffffffffffff, 0], // write a mailbox
    [2, 0, 0x1020, 0x1c, 4, 0, 0], // read a half
    [3, 0, 0x1020, 0x1c, 4, 0xffffffff, 0], // write a half
    [3, 0, 0x1040, 0, 4, 0xfc01ffff, 0], // IPI_Send
    [3, 0, 0x1048, 0, 8, 0xfffffffffc01ffff, 0], // Mail_Send
    [3, 0, 0x1040, 0, 4, 0xfc01ffff, 0], // IPI_Send
    [3, 0, 0x1048, 0, 8, 0xfffffffffc01ffff, 0], // Mail_Send
    // Core 1 again.
    [2, 1, 0x1000, 4, 4, 0, 0], // read Status, Enable
    [3, 1, 0x1004, 0, 4, 0x4000, 0], // write Enable
    [3, 1, 0x1008, 4, 4, 0xffffffff, 0], // write Set, Clear
    [2, 1, 0x1020, 0x18, 8, 0, 0], // read a mailbox
    [3, 1, 0x1020, 0x18, 8, 0xffffffffffffffff, 0], // write a mailbox
    [2, 1, 0x1020, 0x1c, 4, 0, 0], // read a half
    [3, 1, 0x1020, 0x1c, 4, 0xffffffff, 0], // write a half
    [3, 1, 0x1040, 0, 4, 0xfc01ffff, 0], // IPI_Send
    [3, 1, 0x1048, 0, 8, 0xfffffffffc01ffff, 0], // Mail_Send
    [3, 1, 0x1040, 0, 4, 0xfc01ffff, 0], // IPI_Send
    [3, 1, 0x1048, 0, 8, 0xfffffffffc01ffff, 0], // Mail_Send
    [3, 1, 0x1048, 0, 8, 0xfffffffffc01ffff, 0], // Mail_Send
    // The window switch, and a rare reset.
    [7, 0, 0, 0, 0, 3, 0],
    [8, 0, 0, 0, 0, 0x3ff, 0],
    // Refused 1, 2 and 4.
    [2, 2, 0x1000, 4, 4, 0, 0], // core 2
    [1, 0, 0x1fe01010, 0x10c, 4, 0xffffffff, 0], // no register
    [0, 0, 0x1fe01000, 0x10c, 8, 0, 0], // width 8
];

// The first half of SPARSE, of DENSE and of TREE.
pub(crate) const BRIDGE_FIRST: [Row; 32] = [
    // Bus, first window.
    [0, 0, 0x1fe01000, 0x104, 4, 0, 0], // read Status, Enable
    [1, 0, 0x1fe01004, 0x100, 4, 0x101, 0], // write Enable
    [1, 0, 0x1fe01008, 0x104, 4, 0xffffffff, 0], // write Set, Clear
    [0, 0, 0x1fe01020, 0x118, 8, 0, 0], // read a mailbox
    [1, 0, 0x1fe01020, 0x118, 8, 0xffffffffffffffff, 0], // write a mailbox
    [0, 0, 0x1fe01020, 0x11c, 4, 0, 0], // read a half
    [1, 0, 0x1fe01020, 0x11c, 4, 0xffffffff, 0], // write a half
    // Bus, second window.
    [0, 0, 0x3ff01000, 0x104, 4, 0, 0], // read Status, Enable
    [1, 0, 0x3ff01020, 0x118, 8, 0xffffffffffffffff, 0], // write a mailbox
    [0, 0, 0x3ff01020, 0x11c, 4, 0, 0], // read a half
    // Core 0.
    [2, 0, 0x1000, 4, 4, 0, 0], // read Status, Enable
    [3, 0, 0x1004, 0, 4, 0x11, 0], // write Enable
    [3, 0, 0x1008, 4, 4, 0xffffffff, 0], // write Set, Clear
    [3, 0, 0x1020, 0x18, 8, 0xffffffffffffffff, 0], // write a mailbox
    [2, 0, 0x1020, 0x1c, 4, 0, 0], // read a half
    [3, 0, 0x1040, 0, 4, 0xfc01ffff, 0], // IPI_Send
    [3, 0, 0x1048, 0, 8, 0xfffffffffc01ffff, 0], // Mail_Send
    // Core 1.
    [2, 1, 0x1000, 4, 4, 0, 0], // read Status, Enable
    [3, 1, 0x1008, 4, 4, 0xffffffff, 0], // write Set, Clear
    [2, 1, 0x1020, 0x18, 8, 0, 0], // read a mailbox
    [3, 1, 0x1040, 0, 4, 0xfc01ffff, 0], // IPI_Send
    [3, 1, 0x1048, 0, 8, 0xfffffffffc01ffff, 0], // Mail_Send
    // The gate.
    [1, 0, 0x1fe00424, 0, 4, 0xffffffff, 0x10000], // open
    [1, 0, 0x1fe00424, 0, 4, 0xffffffff, 0x10000], // open
    [1, 0, 0x1fe00420, 0, 8, 0xffffffffffffffff, 0x1000000000000], // open
    [1, 0, 0x1fe00424, 0, 4, 0xffffffff, 0], // open or closed
    [1, 0, 0x1fe00420, 0, 4, 0xffffffff, 0], // nothing
    [0, 0, 0x1fe00420, 4, 4, 0, 0], // read a half
    [0, 0, 0x1fe00420, 0, 8, 0, 0], // read
    // Bridge reads.
    [4, 0, 0, 0, 0, 0, 0], // INT_MASK
    [4, 1, 0, 0, 0, 0, 0], // MSI_EN
    [4, 2, 0, 0, 0, 0, 0], // INTEDGE
];

// A few sources pending, the gate open: all but eight sources are masked, and those at times.
pub(crate) const SPARSE_LAST: [Row; 32] = [
    [4, 3, 0, 0, 0, 0, 0], // SOFT_INT
    [4, 4, 0, 0, 0, 0, 0], // AUTO_CTRL0
    [4, 7, 0, 0, 0, 0, 0], // INTISR_CHIP0
    [4, 8, 0, 0, 0, 0, 0], // INTISR_CHIP1
    [10, 0, 0, 1, 0, 0, 0], // which source, in INTISR_CHIP0 or INTISR_CHIP1
    [4, 9, 0, 0, 0, 0, 0], // INTIRR
    [4, 10, 0, 0x3f, 0, 0, 0], // ROUTE_ENTRY
    // Bridge writes.
    [5, 0, 0, 0, 0, 0x8020040100804021, 0x7fdffbfeff7fbfde], // INT_MASK
    [5, 0, 0, 0, 0, 0x8020040100804021, 0x7fdffbfeff7fbfde], // INT_MASK
    [5, 1, 0, 0, 0, 0x101010101010101, 0], // MSI_EN
    [5, 2, 0, 0, 0, 0x3333333333333333, 0], // INTEDGE
    [5, 3, 0, 0, 0, 0xfdfdfdfdfdfdfdfd, 0], // SOFT_INT
    [5, 4, 0, 0, 0, 0xffffffffffffffff, 0], // AUTO_CTRL0
    [5, 6, 0, 0, 0, 0xf0f0f0f0f0f0f0f, 0], // INTCLR
    [5, 10, 0, 0x3f, 0, 0xff, 0], // ROUTE_ENTRY
    [5, 10, 0, 0x3f, 0, 0xff, 0], // ROUTE_ENTRY
    // Any input, high or low.
    [6, 0, 0, 0x3f, 0, 1, 0],
    [6, 0, 0, 0x3f, 0, 1, 0],
    [6, 0, 0, 0x3f, 0, 1, 0],
    [6, 0, 0, 0x3f, 0, 1, 0],
    [6, 0, 0, 0x3f, 0, 1, 0],
    [6, 0, 0, 0x3f, 0, 1, 0],
    [6, 0, 0, 0x3f, 0, 1, 0],
    [6, 0, 0, 0x3f, 0, 1, 0],
    [6, 0, 0, 0x3f, 0, 1, 0],
    [6, 0, 0, 0x3f, 0, 1, 0],
    [6, 0, 0, 0x3f, 0, 1, 0],
    // A rare reset.
    [8, 0, 0, 0, 0, 0x3ff, 0],
    // Refused 5, 6, 7 and 8.
    [4, 6, 0, 0, 0, 0, 0], // read of INTCLR
    [1, 0, 0x1fe00420, 4, 4, 0xffffffff, 0x100000000], // value past width 4
    [6, 0, 0x40, 0x3f, 0, 1, 0], // source past 63
    [5, 5, 0, 0, 0, 0xffffffffffffffff, 1], // AUTO_CTRL1
];

// Half of all sources pending, the gate open.
pub(crate) const DENSE_LAST: [Row; 32] = [
    [4, 3, 0, 0, 0, 0, 0], // SOFT_INT
    [4, 4, 0, 0, 0, 0, 0], // AUTO_CTRL0
    [4, 7, 0, 0, 0, 0, 0], // INTISR_CHIP0
    [4, 8, 0, 0, 0, 0, 0], // INTISR_CHIP1
    [10, 0, 0, 1, 0, 0, 0], // which source, in INTISR_CHIP0 or INTISR_CHIP1
    [4, 9, 0, 0, 0, 0, 0], // INTIRR
    [4, 10, 0, 0x3f, 0, 0, 0], // ROUTE_ENTRY
    // Bridge writes. Sources below 32 are routed to INTn0 or to none, so that INTn1 is not found at once.
    [5, 0, 0, 0, 0, 0x1111111111111111, 0], // INT_MASK
    [5, 0, 0, 0, 0, 0x1111111111111111, 0], // INT_MASK
    [5, 1, 0, 0, 0, 0x101010101010101, 0], // MSI_EN
    [5, 2, 0, 0, 0, 0x3333333333333333, 0], // INTEDGE
    [5, 3, 0, 0, 0, 0xfdfdfdfdfdfdfdfd, 0], // SOFT_INT
    [5, 4, 0, 0, 0, 0xffffffffffffffff, 0], // AUTO_CTRL0
    [5, 6, 0, 0, 0, 0xf0f0f0f0f0f0f0f, 0], // INTCLR
    [5, 10, 0, 0x1f, 0, 0xfd, 0], // ROUTE_ENTRY
    [5, 10, 0x20, 0x1f, 0, 0xff, 0], // ROUTE_ENTRY
    // Any input, high or low.
    [6, 0, 0, 0x3f, 0, 1, 0],
    [6, 0, 0, 0x3f, 0, 1, 0],
    [6, 0, 0, 0x3f, 0, 1, 0],
    [6, 0, 0, 0x3f, 0, 1, 0],
    [6, 0, 0, 0x3f, 0, 1, 0],
    [6, 0, 0, 0x3f, 0, 1, 0],
    [6, 0, 0, 0x3f, 0, 1, 0],
    [6, 0, 0, 0x3f, 0, 1, 0],
    [6, 0, 0, 0x3f, 0, 1, 0],
    [6, 0, 0, 0x3f, 0, 1, 0],
    [6, 0, 0, 0x3f, 0, 1, 0],
    // A rare reset.
    [8, 0, 0, 0, 0, 0x3ff, 0],
    // Refused 1, 2, 6 and 7.
    [3, 1, 0x1040, 0, 4, 0xfc01ffff, 0x2000000], // target 512 or 513
    [1, 0, 0x3ff00420, 0x1004, 4, 0xffffffff, 0], // no gate in the second window
    [5, 10, 0, 0x3f, 0, 0, 0x100], // route 256
    [4, 10, 0x40, 0x3f, 0, 0, 0], // source past 63
];

// Inputs of both kinds down to the pins: a few bridge sources pending, the gate open, a few of the node's sources enabled and routed, edge
// choices among them, those of the bridge's two lines too.
pub(crate) const TREE_LAST: [Row; 32] = [
    // Bridge writes.
    [5, 0, 0, 0, 0, 0x8020040100804021, 0x7fdffbfeff7fbfde], // INT_MASK
    [5, 2, 0, 0, 0, 0x3333333333333333, 0], // INTEDGE
    [5, 3, 0, 0, 0, 0x3131313131313131, 0], // SOFT_INT
    [5, 4, 0, 0, 0, 0xffffffffffffffff, 0], // AUTO_CTRL0
    [5, 6, 0, 0, 0, 0xf0f0f0f0f0f0f0f, 0], // INTCLR
    [5, 10, 0, 0x3f, 0, 0xff, 0], // ROUTE_ENTRY
    // Node reads.
    [0, 0, 0x1fe01420, 0xc, 4, 0, 0], // Intisr, Inten, Intenset, Intenclr
    [0, 0, 0x3ff01440, 8, 4, 0, 0], // CORE0_INTISR, CORE1_INTISR
    [2, 0, 0x1010, 0, 4, 0, 0], // perCore_INTISR
    [2, 1, 0x1010, 0, 4, 0, 0], // perCore_INTISR
    [2, 1, 0x1434, 0, 4, 0, 0], // Intedge
    [0, 0, 0x1fe01400, 0x1f, 1, 0, 0], // Entry
    // Node writes.
    [1, 0, 0x1fe01428, 0, 4, 0x842108c7, 0], // Intenset
    [3, 0, 0x1428, 0, 4, 0x842108c7, 0], // Intenset
    [1, 0, 0x3ff0142c, 0, 4, 0xffffffff, 0], // Intenclr
    [3, 1, 0x142c, 0, 4, 0x11111111, 0], // Intenclr
    [3, 0, 0x1434, 0, 4, 0x33333333, 0], // Intedge
    [1, 0, 0x1fe01400, 0x1f, 1, 0xff, 0], // Entry
    [3, 1, 0x1400, 0x1f, 1, 0xff, 0], // Entry
    // Any input of the bridge, and of the node but for sources 0 and 1, high or low.
    [6, 0, 0, 0x3f, 0, 1, 0],
    [6, 0, 0, 0x3f, 0, 1, 0],
    [6, 0, 0, 0x3f, 0, 1, 0],
    [6, 0, 0, 0x3f, 0, 1, 0],
    [9, 0, 2, 0x1d, 0, 1, 0],
    [9, 0, 4, 0x1b, 0, 1, 0],
    [9, 0, 8, 0x17, 0, 1, 0],
    [9, 0, 0x10, 0xf, 0, 1, 0],
    // A rare reset.
    [8, 0, 0, 0, 0, 0x3ff, 0],
    // Refused 2, 4, 5 or 6, and 7.
    [3, 1, 0x1430, 8, 4, 0xffffffff, 0], // no register
    [0, 0, 0x1fe01400, 0x1f, 4, 0, 0], // Entry at width 4
    [1, 0, 0x3ff01440, 8, 4, 0xffffffff, 0x100000000], // a status register
    [9, 0, 0, 0x21, 0, 1, 0], // source 0, 1, 32 or 33
];
