// Runs the examples of 01 ("Examples on each side") that the proved table leaves, and says of each whether the device does what 01 says, or the request
// that changed it (11: Q-1, 13: Q-6). Then come facts of section 8.2, by the readings of Q-2, searches (Q-5), turns (Q-6) and the bits that steps
// moved (Q-8).
// The parts of an example are lettered in 01's order; those that are missing are in the table, crates/promises/specs/Examples.antt. 8a to 8f,
// 9b and 12b are there too, and so is 12c with other mail sends: they are run here again.
#![tactic(auto)]

mod cells;
mod clash;
mod expected;
mod kinds;
mod run;
mod show;

use access::Refusal;
use bridge_registers::{Chip, Register};
use clash::{Found, Place};
use kinds::{
    bridge_read, bridge_write, bus_read, bus_write, input, node_input, private_read, private_write,
    which, window,
};
use run::Run;
use show::Orders;
use std::io;

// The bit of source 63.
const SOURCE_63: u64 = 0x8000_0000_0000_0000;

// The gate's bit.
const GATE: u64 = 0x1_0000_0000_0000;

// Both lines of the bridge.
const BRIDGE_LINES: u64 = 0b1100;

// Source 10 of the node (UART0): the address of its route, and its bit.
const ENTRY_10: u64 = 0x1fe0140a;

const SOURCE_10: u64 = 0x400;

const INTISR: u64 = 0x1fe01420;

const INTENCLR: u64 = 0x1fe0142c;

// The line of core 1 and pin 2.
const CORE_1_INT2: u64 = 0b100_0000_0000;

// Addresses of the second window at which no register starts. A refused step leaves the device as it was, so the next follows at once.
fn example_5<P: Print>(run: Run<P>) -> io::Result<Run<P>> {
    run.fresh()
        .after(window(false))
        .refuses_read("5b 0x3ff01040 closed", 0x3ff01040, 4, Refusal::Register)?
        .refuses_write(
            "5b write 0x3ff01040 closed",
            0x3ff01040,
            4,
            0x00010005,
            Refusal::Register,
        )?
        .refuses_read("5c 0x3ff00420 closed", 0x3ff00420, 8, Refusal::Register)?
        .refuses_write(
            "5c write 0x3ff00420 closed",
            0x3ff00420,
            8,
            GATE,
            Refusal::Register,
        )?
        .after(window(true))
        .refuses_read("5d 0x3ff00420 open", 0x3ff00420, 8, Refusal::Register)?
        .refuses_write(
            "5d write 0x3ff00420 open",
            0x3ff00420,
            8,
            GATE,
            Refusal::Register,
        )
}

fn example_6<P: Print>(run: Run<P>) -> io::Result<Run<P>> {
    run.fresh().refuses(
        "6b read by core 2",
        private_read(2, 0x1000, 4),
        Refusal::Core,
    )
}

// Rights, widths, and values that fit the width or not.
fn example_7<P: Print>(run: Run<P>) -> io::Result<Run<P>> {
    run.fresh()
        .refuses_write("7a write 0x1fe01000, 4", 0x1fe01000, 4, 1, Refusal::Right)?
        .refuses_read("7b read 0x1fe01008, 4", 0x1fe01008, 4, Refusal::Right)?
        .refuses_read("7c read 0x1fe01004, 8", 0x1fe01004, 8, Refusal::Width)?
        .refuses_write("7c write 0x1fe01004, 8", 0x1fe01004, 8, 1, Refusal::Width)?
        .refuses_read("7d read 0x1fe01124, 8", 0x1fe01124, 8, Refusal::Width)?
        .refuses_write("7d write 0x1fe01124, 8", 0x1fe01124, 8, 1, Refusal::Width)?
        .refuses_write(
            "7e write 0x1fe01004, 4 = 0x100000000",
            0x1fe01004,
            4,
            0x100000000,
            Refusal::Value,
        )?
        .accepts(
            "7f write 0x1fe01004, 4 = 0xffffffff",
            bus_write(0x1fe01004, 4, 0xffffffff),
        )?
        .reads("7f core 0 Enable", bus_read(0x1fe01004, 4), 0xffffffff)
}

// Source 63 reaches both outputs, and the gate keeps the lines low until it is open.
fn example_8<P: Print>(run: Run<P>) -> io::Result<Run<P>> {
    let gate = bus_write(0x1fe00424, 4, 0x00010000);
    run.fresh()
        .writes(
            "8a INT_MASK = 0x7fffffffffffffff",
            Register::IntMask,
            0x7fff_ffff_ffff_ffff,
        )?
        .writes("8b ROUTE_ENTRY 63 = 0xff", Register::RouteEntry(63), 0xff)?
        .shows("8b ROUTE_ENTRY 63", Register::RouteEntry(63), 0x03)?
        .accepts("8c input 63 high, lines low", input(63, true))?
        .shows("8d INTIRR", Register::IntIrr, SOURCE_63)?
        .shows("8e INTISR_CHIP0", Register::IntIsrChip0, SOURCE_63)?
        .shows("8e INTISR_CHIP1", Register::IntIsrChip1, SOURCE_63)?
        .raises("8f write 0x1fe00424, 4 = 0x00010000", gate, BRIDGE_LINES)
}

fn example_8_source_64<P: Print>(run: Run<P>) -> io::Result<Run<P>> {
    let route = bridge_write(Register::RouteEntry(64), 3);
    let route_read = bridge_read(Register::RouteEntry(64));
    run.fresh()
        .refuses("8g ROUTE_ENTRY 64 = 3", route, Refusal::Source)?
        .refuses("8g ROUTE_ENTRY 64", route_read, Refusal::Source)?
        .refuses("8g input 64 high", input(64, true), Refusal::Source)
}

// Source 3 in edge mode, after a rise of its input.
fn risen<P: Print>(run: Run<P>) -> Run<P> {
    run.fresh()
        .after(bridge_write(Register::IntEdge, 8))
        .after(input(3, true))
}

// INTCLR clears the latch of an edge source.
fn example_9<P: Print>(run: Run<P>) -> io::Result<Run<P>> {
    risen(run)
        .after(input(3, false))
        .writes("9b INTCLR = 8", Register::IntClr, 8)?
        .shows("9b INTIRR", Register::IntIrr, 0)
}

// A level source requests as long as it is driven.
fn example_9_level<P: Print>(run: Run<P>) -> io::Result<Run<P>> {
    run.fresh()
        .after(input(3, true))
        .keeps_reads(
            "9c level mode, input 3 high, INTCLR = 8",
            bridge_write(Register::IntClr, 8),
        )?
        .shows("9c INTIRR", Register::IntIrr, 8)
}

// The drive is high already, so that a soft bit is no rise.
fn example_10<P: Print>(run: Run<P>) -> io::Result<Run<P>> {
    risen(run)
        .writes("10a INTCLR = 8", Register::IntClr, 8)?
        .shows("10a INTIRR", Register::IntIrr, 0)?
        .writes("10b SOFT_INT = 8", Register::SoftInt, 8)?
        .shows("10b INTIRR", Register::IntIrr, 0)?
        .shows("10b SOFT_INT", Register::SoftInt, 8)
}

// A source taken to level mode loses its latch (Q-1).
fn example_11<P: Print>(run: Run<P>) -> io::Result<Run<P>> {
    risen(run)
        .after(input(3, false))
        .writes("11a INTEDGE = 0", Register::IntEdge, 0)?
        .shows("11a INTIRR", Register::IntIrr, 0)?
        .writes("11b INTEDGE = 8", Register::IntEdge, 8)?
        .shows("11b INTIRR, by Q-1", Register::IntIrr, 0)
}

// Core 0's Set and Clear of one bit.
fn example_12_status<P: Print>(run: Run<P>) -> io::Result<Run<P>> {
    let set = private_write(0, 0x1008, 4, 1);
    let clear = private_write(0, 0x100c, 4, 1);
    let status = private_read(0, 0x1000, 4);
    run.fresh()
        .orders("12b Set of 1 and Clear of 1", set, clear, Orders::Differ)?
        .clashes(
            "12b Set of 1 and Clear of 1",
            set,
            clear,
            Found(Some((Place::Status, 1))),
        )?
        .after(set)
        .accepts("12b Set, then Clear", clear)?
        .reads("12b core 0 Status", status, 0)?
        .fresh()
        .after(clear)
        .accepts("12b Clear, then Set", set)?
        .reads("12b core 0 Status", status, 1)
}

// Bytes 0 to 2, and bytes 1 to 3, of one half: bytes 1 and 2 are equal.
fn example_12_mail<P: Print>(run: Run<P>) -> io::Result<Run<P>> {
    let low = private_write(0, 0x1048, 8, 0xaabbccdd_4001001c);
    let high = private_write(1, 0x1048, 8, 0x11bbccee_0801001c);
    let mailbox = bus_read(0x1fe01138, 8);
    run.fresh()
        .orders("12c two mail sends", low, high, Orders::Agree)?
        .clashes("12c two mail sends", low, high, Found(None))?
        .after(low)
        .accepts("12c bytes 0 to 2, then 1 to 3", high)?
        .reads("12c core 1 MailBox3", mailbox, 0x11bbccdd_00000000)?
        .fresh()
        .after(high)
        .accepts("12c bytes 1 to 3, then 0 to 2", low)?
        .reads("12c core 1 MailBox3", mailbox, 0x11bbccdd_00000000)
}

// AUTO_CTRL0 keeps any word, and AUTO_CTRL1 only 0 (Q-6).
fn example_13<P: Print>(run: Run<P>) -> io::Result<Run<P>> {
    run.fresh()
        .writes("13a AUTO_CTRL0 = 0", Register::AutoCtrl0, 0)?
        .shows("13a AUTO_CTRL0", Register::AutoCtrl0, 0)?
        .writes("13b AUTO_CTRL0 = 1, by Q-6", Register::AutoCtrl0, 1)?
        .shows("13b AUTO_CTRL0, by Q-6", Register::AutoCtrl0, 1)?
        .refuses(
            "13b AUTO_CTRL1 = 1, by Q-6",
            bridge_write(Register::AutoCtrl1, 1),
            Refusal::Distribution,
        )
}

// A route of the node holds six bits, and 0x42 is INT2 of core 1.
fn node_route<P: Print>(run: Run<P>) -> io::Result<Run<P>> {
    run.fresh()
        .accepts("8.2 Entry 10 = 0xff", bus_write(ENTRY_10, 1, 0xff))?
        .reads("8.2 Entry 10", bus_read(ENTRY_10, 1), 0xf3)?
        .after(bus_write(ENTRY_10, 1, 0x42))
        .after(bus_write(0x1fe01428, 4, SOURCE_10))
        .raises(
            "8.2 Entry 10 = 0x42, Intenset, node input 10 high",
            node_input(10, true),
            CORE_1_INT2,
        )
}

// Then Intenclr takes the enable; a level source that is driven still requests.
fn node_level<P: Print>(run: Run<P>) -> io::Result<Run<P>> {
    run.accepts("8.2 Intenclr", bus_write(INTENCLR, 4, SOURCE_10))?
        .reads("8.2 Inten", bus_read(0x1fe01424, 4), 0)?
        .reads("8.2 level mode, Intisr", bus_read(INTISR, 4), SOURCE_10)
}

// An edge source requests until Intenclr, enabled or not.
fn node_edge<P: Print>(run: Run<P>) -> io::Result<Run<P>> {
    run.fresh()
        .after(bus_write(0x1fe01434, 4, SOURCE_10))
        .after(node_input(10, true))
        .after(node_input(10, false))
        .reads(
            "8.2 edge mode, node input 10 up and down, Intisr",
            bus_read(INTISR, 4),
            SOURCE_10,
        )?
        .accepts("8.2 Intenclr", bus_write(INTENCLR, 4, SOURCE_10))?
        .reads("8.2 Intisr", bus_read(INTISR, 4), 0)
}

// Sources 0 and 1 are the bridge's lines and have no input.
fn node_sources<P: Print>(run: Run<P>) -> io::Result<Run<P>> {
    run.fresh()
        .refuses(
            "8.2 node input 1 high",
            node_input(1, true),
            Refusal::Source,
        )?
        .accepts("8.2 node input 2 high", node_input(2, true))?
        .accepts("8.2 node input 31 high", node_input(31, true))?
        .refuses(
            "8.2 node input 32 high",
            node_input(32, true),
            Refusal::Source,
        )
}

// The lowest source in service at an output, the gate closed; on a fresh device there is none.
fn which_source<P: Print>(run: Run<P>) -> io::Result<Run<P>> {
    run.fresh()
        .refuses(
            "Q-5 which source in INTISR_CHIP0, fresh device",
            which(Chip::Chip0),
            Refusal::NoneInService,
        )?
        .after(bridge_write(Register::IntMask, 0))
        .after(bridge_write(Register::RouteEntry(63), 3))
        .after(bridge_write(Register::RouteEntry(8), 1))
        .after(bridge_write(Register::RouteEntry(0), 1))
        .after(input(63, true))
        .reads("Q-5 source 63 high, routed to both", which(Chip::Chip0), 63)?
        .after(input(8, true))
        .reads("Q-5 source 8 too, routed to INTn0", which(Chip::Chip0), 8)?
        .after(input(0, true))
        .reads("Q-5 source 0 too, routed to INTn0", which(Chip::Chip0), 0)?
        .reads("Q-5 which source in INTISR_CHIP1", which(Chip::Chip1), 63)
}

// Two interrupts of a source in turn mode that is routed to both outputs: each shows on one, and the second on the other.
fn turns<P: Print>(run: Run<P>) -> io::Result<Run<P>> {
    run.fresh()
        .after(bridge_write(Register::IntMask, 0))
        .after(bridge_write(Register::AutoCtrl0, SOURCE_63))
        .after(bridge_write(Register::RouteEntry(63), 3))
        .after(input(63, true))
        .shows(
            "Q-6 INTISR_CHIP1, source 63 high, in turn mode, routed to both",
            Register::IntIsrChip1,
            0,
        )?
        .after(input(63, false))
        .after(input(63, true))
        .shows(
            "Q-6 INTISR_CHIP1, source 63 low and high again",
            Register::IntIsrChip1,
            SOURCE_63,
        )
}

// The bits that a write moved: of a half in its place, of the same write again none, of the gate bit 48.
fn moved<P: Print>(run: Run<P>) -> io::Result<Run<P>> {
    let mail = private_write(0, 0x1048, 8, 0xaabbccdd_4001001c);
    run.fresh()
        .moves("Q-8 the mail send of example 3", mail, 0x00bbccdd_00000000)?
        .moves("Q-8 the same again", mail, 0)?
        .moves(
            "Q-8 write 0x1fe00424, 4 = 0x00010000",
            bus_write(0x1fe00424, 4, 0x00010000),
            GATE,
        )
}

// Of INTEDGE the mode, and not the latch that goes with it; of a route the bits that are held; no word of an input change, and none of a write that is
// refused.
fn moved_alone<P: Print>(run: Run<P>) -> io::Result<Run<P>> {
    run.fresh()
        .moves("Q-8 INTEDGE = 8", bridge_write(Register::IntEdge, 8), 8)?
        .moves("Q-8 input 3 high", input(3, true), 0)?
        .moves("Q-8 INTEDGE = 0", bridge_write(Register::IntEdge, 0), 8)?
        .moves("Q-8 SOFT_INT = 8", bridge_write(Register::SoftInt, 8), 8)?
        .moves(
            "Q-8 ROUTE_ENTRY 63 = 0xff",
            bridge_write(Register::RouteEntry(63), 0xff),
            3,
        )?
        .moves("Q-8 Entry 10 = 0xff", bus_write(ENTRY_10, 1, 0xff), 0xf3)?
        .moves(
            "Q-8 write 0x1fe01004, 4 = 0x100000000",
            bus_write(0x1fe01004, 4, 0x100000000),
            0,
        )
}

fn main(rt: HostRuntime) -> io::Result<()> {
    let run = Run::new(&rt);
    let run = example_5(run)?;
    let run = example_6(run)?;
    let run = example_7(run)?;
    let run = example_8(run)?;
    let run = example_8_source_64(run)?;
    let run = example_9(run)?;
    let run = example_9_level(run)?;
    let run = example_10(run)?;
    let run = example_11(run)?;
    let run = example_12_status(run)?;
    let run = example_12_mail(run)?;
    let run = example_13(run)?;
    let run = node_route(run)?;
    let run = node_level(run)?;
    let run = node_edge(run)?;
    let run = node_sources(run)?;
    let run = which_source(run)?;
    let run = turns(run)?;
    let run = moved(run)?;
    let run = moved_alone(run)?;
    run.show_totals()
}
