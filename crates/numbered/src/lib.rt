// Steps by number, for what comes from outside the model: the lines of a script, the rows of a mix. A number that names nothing gives no step.
#![tactic(auto)]

ghost use Rattle.std.specs.Prelude.{◌≡◌};
ghost use Rattle.numbered.specs.Numbered.{Names, chip_of, flag_at, number_of, register_at, step_at};

use bridge_registers::{Chip, Register};
use steps::Step;

// The kinds of step, in the order of 01 and then of the requests.
#[derive(Clone, Copy, PartialEq, Eq)]
pub enum Kind {
    BusRead,
    BusWrite,
    PrivateRead,
    PrivateWrite,
    BridgeRead,
    BridgeWrite,
    Input,
    Window,
    Reset,
    NodeInput,
    Which,
}

// A number that names no kind of step.
#[derive(Clone, Copy, PartialEq, Eq)]
pub struct UnknownKind(pub u64);

impl TryFrom<u64> for Kind {
    type Error = UnknownKind;

    ghost try_from_gives = { Names };

    fn try_from(number: u64) -> Result<Self, UnknownKind> {
        match number {
            0 => Ok(Kind::BusRead),
            1 => Ok(Kind::BusWrite),
            2 => Ok(Kind::PrivateRead),
            3 => Ok(Kind::PrivateWrite),
            4 => Ok(Kind::BridgeRead),
            5 => Ok(Kind::BridgeWrite),
            6 => Ok(Kind::Input),
            7 => Ok(Kind::Window),
            8 => Ok(Kind::Reset),
            9 => Ok(Kind::NodeInput),
            10 => Ok(Kind::Which),
            _ => Err(UnknownKind(number)),
        }
    }
}

// The last name of a register of the bridge, the only one with a source.
// A number by name: sim puts it into the row that script::step_of takes.
pub const ROUTE_ENTRY: u64 = 10;

// The register of a name, in the order of 01.
// By number, as a script and a mix have it; no TryFrom, since a route's register needs the source beside.
#[tactic(auto, unfolding(crate::specs::Numbered::names, crate::specs::Numbered::register_at))]
fn register_of(name: u64, source: u64) -> Option<Register>
    ensures { result ≡ register_at name source }
{
    match name {
        0 => Some(Register::IntMask),
        1 => Some(Register::MsiEn),
        2 => Some(Register::IntEdge),
        3 => Some(Register::SoftInt),
        4 => Some(Register::AutoCtrl0),
        5 => Some(Register::AutoCtrl1),
        6 => Some(Register::IntClr),
        7 => Some(Register::IntIsrChip0),
        8 => Some(Register::IntIsrChip1),
        9 => Some(Register::IntIrr),
        ROUTE_ENTRY => Some(Register::RouteEntry(source)),
        _ => None,
    }
}

// A level, a switch or a line by its number.
#[tactic(auto, unfolding(crate::specs::Numbered::flag_at))]
fn flag(number: u64) -> Option<bool>
    ensures { result ≡ flag_at number }
{
    match number {
        0 => Some(false),
        1 => Some(true),
        2.. => None,
    }
}

fn chip_of(second: bool) -> Chip
    ensures { result ≡ chip_of second }
{
    if second { Chip::Chip1 } else { Chip::Chip0 }
}

impl Kind {
    // The step of the kind: unit is the core or the register's name, place the address, the offset, the source or the line that is searched,
    // and value what is written, the level or the switch.
    #[tactic(auto, unfolding(crate::specs::Numbered::kinds, crate::specs::Numbered::step_at, crate::specs::Numbered::of_bridge, crate::specs::Numbered::flagged, crate::specs::Numbered::flag_at))]
    pub fn step(self, unit: u64, place: u64, width: u64, value: u64) -> Option<Step>
        ensures { result ≡ step_at (number_of self) unit place width value }
    {
        match self {
            Kind::BusRead => Some(Step::BusRead {
                address: place,
                width,
            }),
            Kind::BusWrite => Some(Step::BusWrite {
                address: place,
                width,
                value,
            }),
            Kind::PrivateRead => Some(Step::PrivateRead {
                core: unit,
                offset: place,
                width,
            }),
            Kind::PrivateWrite => Some(Step::PrivateWrite {
                core: unit,
                offset: place,
                width,
                value,
            }),
            Kind::BridgeRead => {
                register_of(unit, place).map(|register| Step::BridgeRead { register })
            }
            Kind::BridgeWrite => {
                register_of(unit, place).map(|register| Step::BridgeWrite { register, value })
            }
            Kind::Input => flag(value).map(|level| Step::Input {
                source: place,
                level,
            }),
            Kind::Window => flag(value).map(|open| Step::Window { open }),
            Kind::Reset => Some(Step::Reset),
            Kind::NodeInput => flag(value).map(|level| Step::NodeInput {
                source: place,
                level,
            }),
            Kind::Which => flag(place).map(|second| Step::Which {
                chip: chip_of(second),
            }),
        }
    }
}

// The step of a kind by its number, with the numbers that Kind::step takes.
#[tactic(auto, unfolding(crate::specs::Numbered::kinds, crate::specs::Numbered::step_at))]
pub fn step_of(kind: u64, unit: u64, place: u64, width: u64, value: u64) -> Option<Step>
    ensures { result ≡ step_at kind unit place width value }
{
    Kind::try_from(kind).ok()?.step(unit, place, width, value)
}
