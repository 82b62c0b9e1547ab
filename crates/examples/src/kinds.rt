// A step of each kind from its numbers, so that an example takes a line a step.
use bridge_registers::{Chip, Register};
use steps::Step;

pub(crate) fn bus_read(address: u64, width: u64) -> Step {
    Step::BusRead { address, width }
}

pub(crate) fn bus_write(address: u64, width: u64, value: u64) -> Step {
    Step::BusWrite {
        address,
        width,
        value,
    }
}

pub(crate) fn private_read(core: u64, offset: u64, width: u64) -> Step {
    Step::PrivateRead {
        core,
        offset,
        width,
    }
}

pub(crate) fn private_write(core: u64, offset: u64, width: u64, value: u64) -> Step {
    Step::PrivateWrite {
        core,
        offset,
        width,
        value,
    }
}

pub(crate) fn bridge_read(register: Register) -> Step {
    Step::BridgeRead { register }
}

pub(crate) fn bridge_write(register: Register, value: u64) -> Step {
    Step::BridgeWrite { register, value }
}

pub(crate) fn input(source: u64, level: bool) -> Step {
    Step::Input { source, level }
}

pub(crate) fn node_input(source: u64, level: bool) -> Step {
    Step::NodeInput { source, level }
}

pub(crate) fn which(chip: Chip) -> Step {
    Step::Which { chip }
}

pub(crate) fn window(open: bool) -> Step {
    Step::Window { open }
}
