// The windows of the bus and of each core: which register an offset in one of them names.
#![tactic(auto)]

ghost use Rattle.std.specs.Prelude.{◌≡◌};
ghost use Rattle.windows.specs.Table.{bus_address, gate, in_second, located_at, on_core, on_node};
ghost use Rattle.windows.specs.Private.{alone_at, beside_at, core_in, core_term, own_offset, without_term};

use access::{Access, Rights, Widths};

// The two windows of the bus, and the private window of a core.
#[derive(Clone, Copy, PartialEq, Eq)]
pub enum Window {
    First,
    Second,
    Private(u64),
}

// Where an access goes: a window, and the offset in it.
#[derive(Clone, Copy)]
pub struct Address {
    pub window: Window,
    pub offset: u64,
}

// What an offset in a window names: a message register of a core, a register of the node, or the word that holds the gate and its high half.
// The register stands first: so the cases lie alike in memory.
#[derive(Clone, Copy)]
pub enum Place {
    Message {
        register: ipi_registers::Register,
        core: u64,
    },
    Node(node_registers::Register),
    Gate,
    GateHigh,
}

// A place, and how it may be accessed.
#[derive(Clone, Copy)]
pub struct Located {
    pub place: Place,
    pub access: Access,
}

// The window of a bus address, and the offset in it. An address below both names nothing, as offset 0 does.
// No Option: callers would carry it to `locate`, only to refuse it there as any other offset that names nothing.
pub fn bus_address(address: u64) -> Address
    ensures { result ≡ bus_address address }
{
    if address < 0x3ff0_0000 {
        return Address {
            window: Window::First,
            offset: address.saturating_sub(0x1fe0_0000),
        };
    }
    Address {
        window: Window::Second,
        offset: address - 0x3ff0_0000,
    }
}

// Whether a window is the second of the bus, which can be closed.
pub fn is_second(window: Window) -> bool
    ensures { result ≡ in_second window }
{
    window == Window::Second
}

// A core's register.
fn on_core(core: u64, found: Option<ipi_registers::Entry>) -> Option<Located>
    ensures { result ≡ on_core core found }
{
    let ipi_registers::Entry { register, access } = found?;
    Some(Located {
        place: Place::Message { register, core },
        access,
    })
}

// A register of the node.
fn on_node(found: Option<node_registers::Entry>) -> Option<Located>
    ensures { result ≡ on_node found }
{
    let node_registers::Entry { register, access } = found?;
    Some(Located {
        place: Place::Node(register),
        access,
    })
}

// A place that may be read and written.
fn gate_at(place: Place, widths: Widths) -> Option<Located>
    ensures { result ≡ gate place widths }
{
    Some(Located {
        place,
        access: Access {
            rights: Rights::Both,
            widths,
        },
    })
}

// On the bus the message registers of core 1 stand 0x100 above those of core 0.
fn core_term(offset: u64) -> u64
    ensures { result ≡ core_term offset }
{
    match offset {
        0x1100..=0x11ff => 1,
        _ => 0,
    }
}

// The core whose message registers an offset may name.
fn core_in(window: Window, offset: u64) -> u64
    ensures { result ≡ core_in window offset }
{
    match window {
        Window::First | Window::Second => core_term(offset),
        Window::Private(core) => core,
    }
}

fn without_term(offset: u64) -> u64
    ensures { result ≡ without_term offset }
{
    match offset {
        0x1100..=0x11ff => offset - 0x100,
        _ => offset,
    }
}

// The offset without the core term.
fn own_offset(window: Window, offset: u64) -> u64
    ensures { result ≡ own_offset window offset }
{
    match window {
        Window::First | Window::Second => without_term(offset),
        Window::Private(_) => offset,
    }
}

// What the first window alone has.
#[tactic(auto, unfolding(crate::specs::Private::alone_at, crate::specs::Table::alone_in))]
fn first_alone(offset: u64) -> Option<Located>
    ensures { result ≡ alone_at Window.First offset }
{
    match offset {
        0x0420 => gate_at(Place::Gate, Widths::FourOrEight),
        0x0424 => gate_at(Place::GateHigh, Widths::Four),
        _ => None,
    }
}

// What the private window of a core alone has.
#[tactic(auto, using(crate::proofs::Ranges::private_alone))]
fn private_alone(core: u64, offset: u64) -> Option<Located>
    ensures { result ≡ alone_at (Window.Private core) offset }
{
    match offset {
        0x1010 => on_node(node_registers::per_core(core)),
        _ => on_core(core, ipi_registers::send_at(offset)),
    }
}

#[tactic(auto, unfolding(crate::specs::Private::alone_at, crate::specs::Table::alone_in))]
fn alone(window: Window, offset: u64) -> Option<Located>
    ensures { result ≡ alone_at window offset }
{
    match window {
        Window::First => first_alone(offset),
        Window::Second => None,
        Window::Private(core) => private_alone(core, offset),
    }
}

// What is no message register: what one window alone has, and the registers of the node, which every window has from 0x1400 on.
#[tactic(auto, using(crate::proofs::Ranges::beside_alone, crate::proofs::Ranges::beside_node))]
fn beside(window: Window, offset: u64) -> Option<Located>
    ensures { result ≡ beside_at window offset }
{
    if offset < 0x1400 {
        alone(window, offset)
    } else {
        on_node(node_registers::entry_at(offset))
    }
}

// What an address names.
#[tactic(auto, using(crate::proofs::Ranges::located_message))]
pub fn locate(address: Address) -> Option<Located>
    ensures { result ≡ located_at address }
{
    let Address { window, offset } = address;
    match ipi_registers::entry_at(own_offset(window, offset)) {
        None => beside(window, offset),
        found => on_core(core_in(window, offset), found),
    }
}
