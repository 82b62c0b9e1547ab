// A step, with the four kinds of bus and private access as one, and the bridge's reads and writes as one. The form serves speed alone: so
// `decide` names each plan once, and the compiler inlines what is called from one place (docs/SPEED.md).
ghost use Rattle.std.specs.Prelude.{◌≡◌, Bool, true, false};
ghost use Rattle.steps.specs.Decide.{decide_of, private_address};
ghost use Rattle.steps.specs.Private.{request_plan};

use crate::Step;
use access::Transfer;
use bridge_registers::Chip;
use windows::{Address, Window};

#[derive(Clone, Copy)]
pub(crate) enum Request {
    Access(Address, Transfer),
    Bridge {
        register: bridge_registers::Register,
        write: bool,
        value: u64,
    },
    Input {
        source: u64,
        level: bool,
    },
    NodeInput {
        source: u64,
        level: bool,
    },
    Which(Chip),
    Window(bool),
    Reset,
}

// A read is an access that writes nothing.
fn read(width: u64) -> Transfer
    ensures { result ≡ record { width = width; write = false; value = 0 } }
{
    Transfer {
        width,
        write: false,
        value: 0,
    }
}

fn write(width: u64, value: u64) -> Transfer
    ensures { result ≡ record { width = width; write = true; value = value } }
{
    Transfer {
        width,
        write: true,
        value,
    }
}

fn in_private(core: u64, offset: u64) -> Address
    ensures { result ≡ private_address core offset }
{
    Address {
        window: Window::Private(core),
        offset,
    }
}

#[tactic(auto, unfolding(crate::specs::Decide::decide_of, crate::specs::Private::request_plan))]
pub(crate) fn requested(step: Step) -> Request
    ensures { (opened : Bool) → request_plan opened result ≡ decide_of opened step }
{
    match step {
        Step::BusRead { address, width } => {
            Request::Access(windows::bus_address(address), read(width))
        }
        Step::BusWrite {
            address,
            width,
            value,
        } => Request::Access(windows::bus_address(address), write(width, value)),
        Step::PrivateRead {
            core,
            offset,
            width,
        } => Request::Access(in_private(core, offset), read(width)),
        Step::PrivateWrite {
            core,
            offset,
            width,
            value,
        } => Request::Access(in_private(core, offset), write(width, value)),
        Step::BridgeRead { register } => Request::Bridge {
            register,
            write: false,
            value: 0,
        },
        Step::BridgeWrite { register, value } => Request::Bridge {
            register,
            write: true,
            value,
        },
        Step::Input { source, level } => Request::Input { source, level },
        Step::NodeInput { source, level } => Request::NodeInput { source, level },
        Step::Which { chip } => Request::Which(chip),
        Step::Window { open } => Request::Window(open),
        Step::Reset => Request::Reset,
    }
}
