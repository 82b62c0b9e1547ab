// Chapter 7: the inter-core interrupt and mailbox registers by offset, the two sends, and what a write to each does.
#![tactic(auto)]

ghost use Rattle.std.specs.Prelude.{◌≡◌, ◌+◌, ◌<◌};
ghost use Rattle.ipi_registers.specs.Table.{entry_at, send_at};
ghost use Rattle.ipi_registers.specs.Effect.{effect_of, half_of, in_half, ipi_sent, mail_sent, target_of};

use access::{Rights, Widths};

// A register that an offset names. The low half of a mailbox is the mailbox at width 4.
#[derive(Clone, Copy, PartialEq, Eq)]
pub enum Register {
    Status,
    Enable,
    Set,
    Clear,
    MailBox(u64),
    MailBoxHigh(u64),
    IpiSend,
    MailSend,
}

// A register that an offset names, and how it may be accessed.
pub type Entry = access::Entry<Register>;

// A cell that a write reaches.
#[derive(Clone, Copy)]
pub enum Cell {
    Status,
    Enable,
    MailBox(u64),
}

// What a write does: every one is plain.
pub type Effect = access::Effect<Cell>;

// The register that starts at an offset, without the core term.
#[tactic(auto, using(crate::proofs::Ranges::by_range))]
pub fn entry_at(offset: u64) -> Option<Entry>
    ensures { result ≡ entry_at offset }
{
    match offset {
        0x1000 => Some(Entry::new(Register::Status, Rights::Read, Widths::Four)),
        0x1004 => Some(Entry::new(Register::Enable, Rights::Both, Widths::Four)),
        0x1008 => Some(Entry::new(Register::Set, Rights::Write, Widths::Four)),
        0x100c => Some(Entry::new(Register::Clear, Rights::Write, Widths::Four)),
        0x1020..=0x103f => mailbox_at(offset - 0x1020),
        _ => None,
    }
}

// The register that starts at a place in the mailboxes.
#[tactic(auto, using(crate::proofs::Ranges::mailboxes))]
fn mailbox_at(at: u64) -> Option<Entry>
    requires { at < 32 }
    ensures { result ≡ entry_at (0x1020 + at) }
{
    match at % 8 {
        0 => Some(Entry::new(Register::MailBox(at / 8), Rights::Both, Widths::FourOrEight)),
        4 => Some(Entry::new(Register::MailBoxHigh(at / 8), Rights::Both, Widths::Four)),
        _ => None,
    }
}

// The send register that starts at an offset of the private window.
#[tactic(auto, unfolding(crate::specs::Table::send_at, crate::specs::Table::sends))]
pub fn send_at(offset: u64) -> Option<Entry>
    ensures { result ≡ send_at offset }
{
    match offset {
        0x1040 => Some(Entry::new(Register::IpiSend, Rights::Write, Widths::Four)),
        0x1048 => Some(Entry::new(Register::MailSend, Rights::Write, Widths::Eight)),
        _ => None,
    }
}

// The core whose cells a write reaches: the target of a send, and else the core itself.
#[tactic(auto, unfolding(crate::specs::Effect::target_of))]
pub fn target(register: Register, core: u64, value: u64) -> u64
    ensures { result ≡ target_of register core value }
{
    match register {
        Register::IpiSend | Register::MailSend => value / 0x10000 % 0x400,
        _ => core,
    }
}

// The low 32 bits of x, in half h of a mailbox: even halves are low.
fn in_half(h: u64, x: u64) -> u64
    ensures { result ≡ in_half h x }
{
    match h % 2 {
        0 => x % 0x1_0000_0000,
        _ => x % 0x1_0000_0000 * 0x1_0000_0000,
    }
}

// A write to a half, of the bits in mask.
fn half_effect(h: u64, mask: u64, bits: u64) -> Effect
    ensures { result ≡ half_of h mask bits }
{
    Effect::new(Cell::MailBox(h / 2), in_half(h, mask), in_half(h, bits))
}

// A write to a mailbox: all of it, or its low half.
#[tactic(auto, unfolding(crate::specs::Effect::effect_of))]
fn mailbox_effect(i: u64, width: u64, value: u64) -> Effect
    ensures { result ≡ effect_of (Register.MailBox i) width value }
{
    if width == 8 {
        Effect::new(Cell::MailBox(i), 0xffff_ffff_ffff_ffff, value)
    } else {
        Effect::new(Cell::MailBox(i), 0xffff_ffff, in_half(0, value))
    }
}

fn ipi_effect(value: u64) -> Effect
    ensures { result ≡ ipi_sent value }
{
    let vector = bits::put(0, value % 32, true);
    Effect::new(Cell::Status, vector, vector)
}

#[tactic(auto, unfolding(crate::specs::Effect::mail_sent))]
fn mail_effect(value: u64) -> Effect
    ensures { result ≡ mail_sent value }
{
    half_effect(
        value / 4 % 8,
        lanes::written_bytes(value / 0x800_0000 % 16),
        value / 0x1_0000_0000 % 0x1_0000_0000,
    )
}

// What a write to a register does. No write to Status is accepted.
#[tactic(auto, unfolding(crate::specs::Effect::effect_of))]
pub fn write_effect(register: Register, width: u64, value: u64) -> Effect
    ensures { result ≡ effect_of register width value }
{
    match register {
        Register::Status => Effect::new(Cell::Status, 0, 0),
        Register::Enable => Effect::new(Cell::Enable, 0xffff_ffff, value),
        Register::Set => Effect::new(Cell::Status, value, value),
        Register::Clear => Effect::new(Cell::Status, value, 0),
        Register::MailBox(i) => mailbox_effect(i, width, value),
        Register::MailBoxHigh(i) => {
            Effect::new(Cell::MailBox(i), 0xffff_ffff_0000_0000, in_half(1, value))
        }
        Register::IpiSend => ipi_effect(value),
        Register::MailSend => mail_effect(value),
    }
}
