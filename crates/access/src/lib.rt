// What every register block shares: refusals and their numbers, the rights and widths of a register, the refusals of an access to it, and the
// forms of a table's row and of what a write does.
#![tactic(auto)]

ghost use Rattle.std.specs.Prelude.{◌≡◌};
ghost use Rattle.access.specs.Refusal.{first_of, refusal_number};
ghost use Rattle.access.specs.Access.{access_refusals, fitting, listed, permitted};

// Why a step is refused, in the order of the numbers: 1 to 9.
#[derive(Clone, Copy, PartialEq, Eq)]
pub enum Refusal {
    Core,
    Register,
    Window,
    Width,
    Right,
    Value,
    Source,
    Distribution,
    NoneInService,
}

// The number of a refusal.
impl From<Refusal> for u64 {
    ghost use Rattle.std.specs.Prelude.{◌≡◌};
    ghost use Rattle.access.specs.Refusal.{refusal_number};

    ghost from_gives = { λ refusal number. number ≡ refusal_number refusal };

    #[tactic(auto, unfolding(crate::specs::Refusal::refusal_number))]
    fn from(refusal: Refusal) -> u64 {
        match refusal {
            Refusal::Core => 1,
            Refusal::Register => 2,
            Refusal::Window => 3,
            Refusal::Width => 4,
            Refusal::Right => 5,
            Refusal::Value => 6,
            Refusal::Source => 7,
            Refusal::Distribution => 8,
            Refusal::NoneInService => 9,
        }
    }
}

// The numbers of a replay's refusals.
// Numbers by name and no enum: the nine cases above are what a step may be refused, and these stand in one table with them (docs/DECISIONS.md, B49).
pub const BAD_TEXT: u64 = 10;

pub const EARLIER_TIME: u64 = 11;

pub const NO_ROOM: u64 = 12;

#[derive(Clone, Copy, PartialEq, Eq)]
pub enum Rights {
    Read,
    Write,
    Both,
}

#[derive(Clone, Copy, PartialEq, Eq)]
pub enum Widths {
    One,
    Four,
    Eight,
    FourOrEight,
}

// How a register may be accessed.
#[derive(Clone, Copy)]
pub struct Access {
    pub rights: Rights,
    pub widths: Widths,
}

// A register that an offset names, and how it may be accessed.
#[derive(Clone, Copy)]
pub struct Entry<R> {
    pub register: R,
    pub access: Access,
}

impl<R: Copy> Entry<R> {
    ghost use Rattle.std.specs.Prelude.{◌≡◌};
    ghost use Rattle.access.specs.Access.{entry};

    pub fn new(register: R, rights: Rights, widths: Widths) -> Self
        ensures { result ≡ entry register rights widths }
    {
        Entry {
            register,
            access: Access { rights, widths },
        }
    }
}

// A plain write: the bits of the cell that are in mask take the values in bits.
#[derive(Clone, Copy)]
pub struct Effect<C> {
    pub cell: C,
    pub mask: u64,
    pub bits: u64,
}

impl<C: Copy> Effect<C> {
    ghost use Rattle.std.specs.Prelude.{◌≡◌};
    ghost use Rattle.access.specs.Access.{effect};

    pub fn new(cell: C, mask: u64, bits: u64) -> Self
        ensures { result ≡ effect cell mask bits }
    {
        Effect { cell, mask, bits }
    }
}

// What an accepted write does: a plain write to a cell, or another change.
#[derive(Clone, Copy)]
pub enum Written<C, X> {
    Plain(Effect<C>),
    Changed(X),
}

// What an access carries: its width, whether it writes, and the value that it writes, 0 of a read.
// No `written: Option<u64>`: the tests of width, value and target are of reads too, and would each unwrap it to 0.
#[derive(Clone, Copy)]
pub struct Transfer {
    pub width: u64,
    pub write: bool,
    pub value: u64,
}

#[tactic(auto, unfolding(crate::specs::Access::permitted))]
pub fn permits(rights: Rights, write: bool) -> bool
    ensures { result ≡ permitted rights write }
{
    match rights {
        Rights::Read => !write,
        Rights::Write => write,
        Rights::Both => true,
    }
}

#[tactic(auto, unfolding(crate::specs::Access::listed))]
fn lists(widths: Widths, width: u64) -> bool
    ensures { result ≡ listed widths width }
{
    match widths {
        Widths::One => width == 1,
        Widths::Four => width == 4,
        Widths::Eight => width == 8,
        Widths::FourOrEight => width == 4 || width == 8,
    }
}

// The value fits the width. Eight bytes hold every u64.
#[tactic(auto, unfolding(crate::specs::Access::fitting))]
fn fits(width: u64, value: u64) -> bool
    ensures { result ≡ fitting width value }
{
    match width {
        1 => value < 0x100,
        4 => value < 0x1_0000_0000,
        _ => true,
    }
}

// The first refusal that applies, of 4, 5 and 6.
#[tactic(auto, unfolding(crate::specs::Access::access_refusals))]
pub fn judge(access: Access, transfer: Transfer) -> Result<(), Refusal>
    ensures { result ≡ first_of (access_refusals access transfer.width transfer.write transfer.value) }
{
    if !lists(access.widths, transfer.width) {
        return Err(Refusal::Width);
    }
    if !permits(access.rights, transfer.write) {
        return Err(Refusal::Right);
    }
    if !fits(transfer.width, transfer.value) {
        return Err(Refusal::Value);
    }
    Ok(())
}
